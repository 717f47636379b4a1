use crate::Addresses;
use proxy_config::{Config, read};
use std::alloc::Global;
use std::net::SocketAddr;
use std::process::Abort;

const SERVERS: &[u8] = b"listen w
 bind :1
 server a 127.0.0.1:9001
 server b localhost:9002
 server c 10.1.2.3:9003
";

fn config(rt: &impl Abort, alloc: Global) -> Config {
    read(alloc, SERVERS).expect(rt, "a configuration")
}

fn address(rt: &impl Abort, text: &str) -> Option<SocketAddr> {
    Some(text.parse::<SocketAddr>().expect(rt, "an address"))
}

#[test]
fn addresses_of_numbers_are_there_at_once(rt: HostRuntime) {
    let config = config(&rt, rt.alloc());
    let addresses = Addresses::new(rt.alloc(), &config).expect(&rt, "memory");
    assert!(rt; addresses.of(&rt, &config, 0) == address(&rt, "127.0.0.1:9001"));
    assert!(rt; addresses.of(&rt, &config, 1).is_none());
    assert!(rt; addresses.of(&rt, &config, 2) == address(&rt, "10.1.2.3:9003"));
    assert!(rt; addresses.of(&rt, &config, 3).is_none());
}

#[test]
fn names_are_looked_up_by_their_threads(rt: HostRuntime) {
    let config = config(&rt, rt.alloc());
    let addresses = Addresses::new(rt.alloc(), &config).expect(&rt, "memory");
    addresses.start(&rt).expect(&rt, "a thread");
    addresses.look_again(&rt, 0);
    addresses.look_again(&rt, 1);
    let found = addresses
        .of(&rt, &config, 1)
        .expect(&rt, "the address of localhost");
    assert!(rt; found.ip().is_loopback());
    assert_eq!(rt; found.port(), 9002);
    addresses.close(&rt);
}
