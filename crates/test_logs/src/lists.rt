use crate::assertions::{holds, same};
use base_lists::Items;

#[test]
fn a_list_is_a_vec_and_back(rt: HostRuntime) {
    let mut list = Items::copied(rt.alloc(), &[1, 2]).expect(&rt, "memory");
    list.push(3).expect(&rt, "memory");
    same(&rt, list.as_slice(), [1, 2, 3].as_slice());
    same(&rt, list.len(), 3);
    holds(&rt, !list.is_empty());
    same(&rt, list.into_vec().as_slice(), [1, 2, 3].as_slice());
    holds(&rt, Items::<u8>::new(rt.alloc()).is_empty());
}
