// A register that is not the network crate's own, beside a table, read by code that serves any register.
#![tactic(auto)]

ghost use Rattle.std.specs.Prelude.{◌≡◌, MatchResult};
ghost use Rattle.network.specs.Refusals.{number_of};
ghost use Rattle.network.specs.Table.{table, Refused};
ghost use Rattle.registers_test.specs.Constant.{constant, constant_proper, all_bandwidth};

use network::{Circuit, Circuits, LoadRefusal, Register, TableRegister};

// Two places and one circuit, which never change.
#[derive(Drop)]
pub struct TwoPlaces;

impl Register for TwoPlaces {
    ghost network = { λ _. constant };

    ghost proper = { λ _. constant_proper };

    fn places(&self) -> u16 {
        2
    }

    fn circuits(&self) -> u16 {
        1
    }

    fn circuit(&self, number: u32) -> Option<Circuit> {
        if number == 0 {
            Some(Circuit {
                from: 0,
                to: 1,
                bandwidth: 10_000,
                cost: 3,
            })
        } else {
            None
        }
    }
}

// The bandwidth of all circuits of a register together, in kbit/s.
pub fn total_bandwidth<R: Register>(register: &R) -> u64
    ensures { result ≡ all_bandwidth (R.network register.now) }
{
    let mut total: u64 = 0;
    for circuit in Circuits::of(register) {
        total += u64::from(circuit.bandwidth);
    }
    total
}

// The same of a table in the caller's memory, where it is one.
pub fn table_bandwidth(places: u32, circuits: &[Circuit]) -> Result<u64, LoadRefusal>
    ensures { MatchResult result (λ total. total ≡ all_bandwidth (table places circuits.now)) (λ e. Refused (table places circuits.now) (number_of e.refusal) e.at) }
{
    let mut table = TableRegister::empty();
    table.load(places, circuits)?;
    Ok(total_bandwidth(&table))
}

#[cfg(test)]
mod tests {
    use super::*;
    use network::Refusal;
    use std::test::Fail;

    #[test]
    fn any_register_is_read(rt: HostRuntime) -> Result<(), Fail> {
        let circuits = [
            Circuit {
                from: 0,
                to: 1,
                bandwidth: 4_000,
                cost: 1,
            },
            Circuit {
                from: 1,
                to: 2,
                bandwidth: 2_500,
                cost: 7,
            },
        ];
        let mut table = TableRegister::empty();
        table.load(3, &circuits)?;
        assert_eq!(rt; table.places(), 3);
        assert_eq!(rt; total_bandwidth(&table), 6_500);
        // Place 2 is none of two places: refused at the second record, and the table is as it was.
        let refused = table.load(2, &circuits);
        assert_eq!(rt;
            refused,
            Err(LoadRefusal {
                refusal: Refusal::Ends,
                at: 1,
            })
        );
        assert_eq!(rt; total_bandwidth(&table), 6_500);
        assert_eq!(rt; TwoPlaces.places(), 2);
        assert_eq!(rt; total_bandwidth(&TwoPlaces), 10_000);
        Ok(())
    }
}
