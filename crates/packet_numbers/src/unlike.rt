//! Two values that were opened unlike can't be joined.
ghost use Rattle.std.specs.Prelude.{◌≡◌};

use thiserror::Error;

/// The two were opened unlike, and neither changed.
#[derive(Clone, Copy, Debug, PartialEq, Eq, Error)]
#[error("the two were opened unlike")]
pub struct OpenedUnlike;

impl OpenedUnlike {
    ghost use Rattle.packet_numbers.specs.Numbers.{opened_unlike_name};

    /// Its number: 1, as there is but one.
    pub fn number(self) -> u8
        ensures { result ≡ 1 }
    {
        1
    }

    /// Its bare name, as the texts of the program have it.
    pub fn name(self) -> &'static str
        ensures { result.now ≡ opened_unlike_name }
    {
        "OpenedUnlike"
    }
}
