//! The blocks that are sent.
use denial::Denial;
use layout::{BLOCKS, BlockName};
use samples::sample_block;
use sender::Sender;

pub fn load_all(sender: &mut Sender<'_>) -> Result<(), Denial> {
    for name in (0..BLOCKS).filter_map(BlockName::at) {
        sender.load(name.packet(), name.channel(), &sample_block(name))?;
    }
    Ok(())
}
