// An event of a flow.
use sheet::Event;

// Its name, 1 to 16 bytes, and what a sheet tells of it.
#[derive(Drop)]
pub struct NamedEvent {
    pub name: Vec<u8>,
    pub event: Event,
}
