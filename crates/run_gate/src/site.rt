ghost use Rattle.std.specs.Prelude.{◌≡◌};

use crate::front::GateShared;
use locked_book::DeskName;
use relay_workers::Proxy;

/// A proxy, and the data that its gates share.
#[derive(Drop)]
pub struct Site<'a, N: DeskName> {
    pub proxy: &'a Proxy<N>,
    pub front: &'a GateShared<'a>,
    /// The gates have the proxy's configuration.
    pub ghost of_config: { front.now.config.now ≡ proxy.now.config },
}
