//! How far a holder has come with its grant.

ghost use Rattle.std.specs.Prelude.{◌≡◌};
ghost use Rattle.smi_audit.specs.Tables as spec;

/// How far a holder has come with its grant.
#[derive(Clone, Copy, PartialEq, Eq)]
pub enum GrantStage {
    /// Nobody holds the domain, or its holder has not learned of the grant.
    Given,
    /// The holder has learned of its grant.
    Held,
    /// The holder has let go of it.
    Gone,
}

impl GrantStage {
    /// Returns true if no holder has learned of the grant.
    pub fn is_given(self) -> bool
        ensures { result ≡ spec.is_given self }
    {
        match self {
            GrantStage::Given => true,
            GrantStage::Held | GrantStage::Gone => false,
        }
    }

    /// Returns true if the holder holds the domain.
    pub fn is_held(self) -> bool
        ensures { result ≡ spec.is_held self }
    {
        match self {
            GrantStage::Held => true,
            GrantStage::Given | GrantStage::Gone => false,
        }
    }

    /// Returns true if the holder has let go of it.
    pub fn is_gone(self) -> bool
        ensures { result ≡ spec.is_gone self }
    {
        match self {
            GrantStage::Gone => true,
            GrantStage::Given | GrantStage::Held => false,
        }
    }

    /// Returns true if nobody holds the domain.
    pub fn is_loose(self) -> bool
        ensures { result ≡ spec.is_loose self }
    {
        match self {
            GrantStage::Held => false,
            GrantStage::Given | GrantStage::Gone => true,
        }
    }
}
