// The network of a file, in memory: read, and arranged for the search.
ghost use Rattle.std.specs.Prelude.{◌≤◌, length};
ghost use Rattle.network.specs.Network.{room_size};
ghost use Rattle.enquiry.specs.Loaded.{Loaded};

use file_read::read;
use network_arrange::arrange;
use network_records::{FUN_ROOM, LINK_ROOM};
use paper::fault::Refusal;

// The room, which is the caller's, holds the network of an accepted file.
pub fn load(file: &[u8], room: &mut [u32]) -> Result<(), Refusal>
    requires { room_size ≤ length room.old }
    ensures { Loaded file.now result room.new }
{
    let mut links = [0u32; LINK_ROOM];
    let mut funs = [0u32; FUN_ROOM];
    let size = read(file, &mut links, &mut funs)?;
    arrange(&links, &funs, size, room);
    Ok(())
}
