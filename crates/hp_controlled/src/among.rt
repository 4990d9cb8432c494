//! Laws: machines among others do what they do by themselves.
//!
//! The functions here do nothing: each is a law, which its contract states.
ghost use Rattle.hp_controlled.specs.Among.{AmongLaw, FormLaw};
ghost use Rattle.hp_controlled.specs.Joining.{SameLaw};

/// Machines that call each other alone do the same where others, of other names, stand between them.
pub fn machines_do_the_same_among_others()
    ensures among { AmongLaw }
    ensures form { FormLaw }
{}

/// So do the own machines of a program's nodes among those of its contracts.
pub fn own_machines_do_the_same()
    ensures { SameLaw }
{
    machines_do_the_same_among_others();
}
