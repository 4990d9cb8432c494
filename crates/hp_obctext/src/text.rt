//! Machines and files as a text has them.
use crate::steps::Steps;
use hp_base::Name;
use hp_obc::{Mem, ObcType, Var};
use std::marker::Model;

#[derive(Debug, Drop)]
pub(crate) struct Text {
    pub name: Name,
    pub inputs: Vec<Var>,
    pub outputs: Vec<Var>,
    pub vars: Vec<Var>,
    pub mems: Vec<Mem>,
    pub insts: Vec<(Name, Name)>,
    pub steps: Steps,
}

impl Model for Text {
    ghost use Rattle.hp_obctext.specs.Files.{Text};
    ghost use Rattle.hp_obctext.specs.TextCode.{text_code, text_seen};

    ghost Value = { Text };

    ghost coded = { text_code };

    ghost view = { text_seen };
}

#[derive(Debug, Drop)]
pub(crate) struct File {
    pub types: Vec<ObcType>,
    pub machines: Vec<Text>,
}
