use std::alloc::AllocError;

/// Why there is no file of some types and machines.
#[derive(Clone, Copy, Debug, PartialEq, Eq)]
pub enum FormErr {
    /// They have no form.
    NoForm,
    OutOfMemory,
}

impl From<AllocError> for FormErr {
    ghost use Rattle.std.specs.Prelude.{◌≡◌};
    ghost use Rattle.hp_form.specs.declared.error.FormErr.TheVariants.{OutOfMemory};

    ghost from_gives = { λ _ e. e ≡ OutOfMemory };

    fn from(_: AllocError) -> FormErr {
        FormErr::OutOfMemory
    }
}
