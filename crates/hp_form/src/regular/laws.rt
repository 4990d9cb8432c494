//! What regular equations have.
ghost use Rattle.hp_form.specs.Regular.Regular.{RegularLaw};

/// Where types have form, regular equations have what is asked of equations that a machine is made of.
pub fn regular_equations_have_form()
    ensures { RegularLaw }
{}
