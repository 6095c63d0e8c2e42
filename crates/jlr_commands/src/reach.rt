//! What sessions may open, as a device in front of the system's.
use jlr_command_line::arguments::Reach;
use jlr_device::fenced::{Fence, Fenced};
use jlr_device::places::{Inode, SystemPlaces};
use jlr_device::real::RealDevice;

/// The device of a session that has this reach, and joins none of the program's own sockets.
pub(crate) fn fenced<'a>(
    rt: &HostRuntime,
    reach: Reach<'a>,
    own: &'a [Inode],
) -> Fenced<'a, RealDevice, SystemPlaces<'a>> {
    let fence = match reach {
        Reach::Everything => Fence::Everything,
        Reach::Below(folder) => Fence::Below(folder),
        Reach::Nothing => Fence::Nothing,
    };
    Fenced::new(RealDevice::new(*rt), SystemPlaces::new(*rt, own), fence)
}
