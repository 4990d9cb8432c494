//! Certificates, made of the diagrams of a table: each node that the walk from what is proved visits is a line, low before high and behind
//! its children. So the text of a certificate does not depend on the table.
#![tactic(auto)]

mod lines;
mod making;
mod walk;

pub use making::{Page, lose_cert, make_page, win_cert};
