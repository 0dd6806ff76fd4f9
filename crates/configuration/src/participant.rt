// Who trades.
ghost use Rattle.std.specs.Prelude.{◌≡◌, true};
ghost use Rattle.texts.specs.Bytes.{said, named};

use crate::config::StartRefusal;
use crate::naming::Named;
use texts::names::{CompId, Password};

/// A CompID that trades: its password, its firm, and whether its marked orders end with the line. Its name is not
/// empty; a password may be.
#[derive(Clone, Copy)]
pub struct Participant {
    pub name: CompId,
    pub password: Password,
    pub firm: u32,
    pub ends_orders: bool,
    ghost called: { named name.bytes ≡ true },
}

impl Named for Participant {
    ghost name_of = { λ p. said p.name.bytes };

    fn has_name_of(&self, other: &Participant) -> bool {
        self.name.says_same(&other.name)
    }
}

impl Participant {
    ghost use Rattle.configuration.specs.Configs.{Admits};

    /// Refused where a text does not fit its field or is not printable, or the name is empty.
    #[tactic(auto, using(crate::proofs::Names::name_given))]
    pub fn new(
        name: &[u8],
        password: &[u8],
        firm: u32,
        ends_orders: bool,
    ) -> Result<Participant, StartRefusal>
        ensures { Admits name.now password.now firm ends_orders result }
    {
        if name.is_empty() {
            return Err(StartRefusal::BadConfiguration);
        }
        let name = CompId::new(name).ok_or(StartRefusal::BadConfiguration)?;
        let password = Password::new(password).ok_or(StartRefusal::BadConfiguration)?;
        Ok(Participant {
            name,
            password,
            firm,
            ends_orders,
        })
    }
}
