// Why something is turned away.
ghost use Rattle.std.specs.Prelude.{◌≡◌, Some};
ghost use Rattle.pages.specs.Refusals.{number_of, text_of};

use std::fmt;

/// Why something is turned away: the first of these that fits, in this order.
#[derive(Clone, Copy, PartialEq, Eq, Debug)]
pub enum Refusal {
    /// Cut short, too long, of unknown kind, or with too many receipts.
    Malformed,
    /// It is there already, or waits.
    Duplicate,
    /// The height isn't one more than the parent's, or it is a second page 0.
    WrongHeight,
    /// There is no room for it.
    Full,
}

/// The number by which a refusal is printed.
impl From<Refusal> for u8 {
    ghost from_gives = { λ why n. n ≡ number_of why };

    fn from(why: Refusal) -> u8 {
        match why {
            Refusal::Malformed => 1,
            Refusal::Duplicate => 2,
            Refusal::WrongHeight => 3,
            Refusal::Full => 4,
        }
    }
}

impl fmt::Display for Refusal {
    ghost output = { λ why. Some (text_of why) };

    fn fmt<W: fmt::Write>(&self, f: &mut fmt::Formatter<W>) -> fmt::Result {
        write!(f, "refused {}", u8::from(*self))
    }
}

#[cfg(test)]
mod tests {
    use super::*;
    use std::test::Fail;

    #[test]
    fn a_refusal_is_printed_by_its_number(rt: HostRuntime) -> Result<(), Fail> {
        let text = format!(in rt.alloc(); "{}", Refusal::WrongHeight)?;
        assert_eq!(rt; text.as_str(), "refused 3");
        Ok(())
    }
}
