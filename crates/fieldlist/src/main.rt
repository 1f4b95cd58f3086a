// Lists an archive of at most 65,536 bytes from standard input. The text is `printed` of crates/listing/specs/Listing.antt.
#![tactic(auto)]

use std::io;

fn main(rt: HostRuntime) -> io::Result<()> {
    listing::list(&mut rt.stdin(), &mut rt.stdout())
}
