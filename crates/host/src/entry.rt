// The one function that C calls, by way of the crate host_c.
ghost use Rattle.std.specs.Prelude.{◌≡◌, MatchResult};
ghost use Rattle.host.specs.Status.{status};
ghost use Rattle.host.specs.Entry.{Means, UnknownMode, Outcome};

use super::answer::answer;
use super::failure::Failure;
use book::Book;
use calls::Ask;
use image::ImageRegister;
use network::Refusal;
use promise::Mode;
use scale::Total;
use std::alloc::Global;

// The mode that C means by a number. No `TryFrom`, since the enum is another crate's.
fn mode_of(number: u32) -> Result<Mode, Refusal>
    ensures { MatchResult result (λ m. Means number m) (λ e. (e ≡ Refusal.Mode) × UnknownMode number) }
{
    match number {
        1 => Ok(Mode::OnePlusOne),
        2 => Ok(Mode::OneToOne),
        _ => Err(Refusal::Mode),
    }
}

// Loads the image, asks a new book over it for the safest pair, and writes the pair to the output. The arguments are C's own.
fn safest_pair(
    heap: Global,
    image: &[u8],
    output: &mut [u8],
    from: u32,
    to: u32,
    rate: u32,
    mode: u32,
) -> Result<(), Failure>
    ensures { Outcome image.now output.old from to rate mode output.new (status result) }
{
    let mode = mode_of(mode)?;
    let mut register = ImageRegister::empty();
    register.load(image)?;
    let book = Book::new(heap, register, Total)?;
    let ask = Ask {
        from,
        to,
        rate,
        mode,
    };
    answer(&book, ask, output)?;
    Ok(())
}

// The same for C: 0, or the number of the failure.
pub fn route_book_safest(
    heap: Global,
    image: &[u8],
    output: &mut [u8],
    from: u32,
    to: u32,
    rate: u32,
    mode: u32,
) -> u32
    ensures { Outcome image.now output.old from to rate mode output.new result }
{
    match safest_pair(heap, image, output, from, to, rate, mode) {
        Ok(()) => 0,
        Err(failure) => failure.number(),
    }
}
