// A question for two routes between two places, by what the tables leave.
ghost use Rattle.std.specs.Prelude.{◌<◌, ◌≢◌};

use network::Register;
use promise::Mode;
use tables::Tables;

// Asked of two different places of the register. That the tables are those of the register's network is no fact of it, so
// that it can be asked of any tables: what is answered of the ledger says so itself.
#[derive(Drop)]
pub struct Question<'a, R: Register> {
    pub register: &'a R,
    pub tables: &'a Tables,
    pub from: u32,
    pub to: u32,
    pub mode: Mode,
    ghost from_is_place: { from < (R.network register.now).places },
    ghost to_is_place: { to < (R.network register.now).places },
    ghost apart: { from ≢ to },
}
