// The statements that locations lead to.
ghost use Rattle.std.specs.Prelude.{◌≡◌, ◌<◌, ◌^◌};
ghost use Rattle.exp_common.specs.Locations.{lead};

/// The statement that a location of statement `k` leads to.
pub fn lead(k: u32, location: Option<u32>) -> u32
    requires { k < 2 ^ 31 }
    ensures { result ≡ lead k location }
{
    match location {
        Some(statement) => statement,
        None => k + 1,
    }
}

/// The locations of a comparison of order, each the number of a statement, or none for the next one.
#[derive(Clone, Copy)]
pub struct ByOrder {
    pub greater: Option<u32>,
    pub equal: Option<u32>,
    pub less: Option<u32>,
}

impl ByOrder {
    /// The statements that the locations of statement `k` lead to.
    pub fn statements(self, k: u32) -> (u32, u32, u32)
        requires { k < 2 ^ 31 }
        ensures greater { result.0 ≡ lead k self.greater }
        ensures equal { result.1 ≡ lead k self.equal }
        ensures less { result.2 ≡ lead k self.less }
    {
        (
            lead(k, self.greater),
            lead(k, self.equal),
            lead(k, self.less),
        )
    }
}

/// The locations of a question, each the number of a statement, or none for the next one.
#[derive(Clone, Copy)]
pub struct ByAnswer {
    pub no: Option<u32>,
    pub yes: Option<u32>,
}

impl ByAnswer {
    /// The statements that the locations of statement `k` lead to.
    pub fn statements(self, k: u32) -> (u32, u32)
        requires { k < 2 ^ 31 }
        ensures no { result.0 ≡ lead k self.no }
        ensures yes { result.1 ≡ lead k self.yes }
    {
        (lead(k, self.no), lead(k, self.yes))
    }
}
