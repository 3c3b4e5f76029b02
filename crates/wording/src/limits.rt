// How many units a run may use, and how many the sheet can use at most, by its profile.
ghost use Rattle.std.specs.Prelude.{◌≡◌};
ghost use Rattle.wording.specs.Limits.{no_limits};

// What a run may use, and what it can use: that is not known of a sheet that does not pass the profile.
#[derive(Clone, Copy)]
pub struct Limits {
    pub allowance: u64,
    pub most: Option<u32>,
}

// Where nothing is run.
pub fn unlimited() -> Limits
    ensures { result ≡ no_limits }
{
    Limits {
        allowance: 0,
        most: None,
    }
}
