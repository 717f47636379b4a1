use locked_book::DeskName;
use relay_workers::Proxy;
use run_gate::Site;

/// Lends threads a proxy, with the data that its gates share. Whether a type parameter may be
/// shared is known only from a bound, so this trait shows it once, for `Site`.
pub trait Lends<N: DeskName> {
    fn lend(&self) -> &Site<'_, N>;

    fn proxy(&self) -> &Proxy<N>;
}

impl<'a, N: DeskName> Lends<N> for Site<'a, N> {
    fn lend(&self) -> &Site<'_, N> {
        self
    }

    fn proxy(&self) -> &Proxy<N> {
        self.proxy
    }
}
