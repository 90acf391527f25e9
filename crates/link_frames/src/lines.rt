//! Lines of bytes, the buffers that they are read into and written from, and devices: readers and writers that may
//! fail.

mod ahead;
mod blocks;
mod device;
mod faulty;
mod held;
mod next;
mod watched;

pub use ahead::Ahead;
pub use blocks::AheadFault;
pub use device::{DeviceFault, read_patiently, write_whole};
pub use faulty::{Faulty, Mishap};
pub use held::Held;
pub use next::Next;
pub use watched::Watched;
pub(crate) use watched::is_interruption;
