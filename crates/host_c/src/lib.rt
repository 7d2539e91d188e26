// What C links: the entry for the automation host under its C name. The work is done, and its definitions stand, in the
// crate host.
#![tactic(auto)]

ghost use Rattle.host.specs.Entry.{Outcome};

use std::alloc::Global;

// Loads the image, asks a new book over it for the safest pair, and writes the pair to the output: 0, or why not. A
// `Global` takes no bytes, so C passes nothing for it.
#[unsafe(no_mangle)]
pub extern "C" fn route_book_safest(
    heap: Global,
    image: &[u8],
    output: &mut [u8],
    from: u32,
    to: u32,
    rate: u32,
    mode: u32,
) -> u32
    ensures { Outcome image.now output.old from to rate mode output.new result }
{
    host::route_book_safest(heap, image, output, from, to, rate, mode)
}
