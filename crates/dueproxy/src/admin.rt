//! The admin listener that the options ask for.

use config_command::{AdminFault, AdminWords, admin_address};
use config_files::address_remedy;
use run_admin::Admin;
use std::io::Error;
use std::net::{Net, SocketAddr, TcpListener, TcpStream};

/// Makes the admin listener; `None` where the options ask for none. Where it can't be made, prints
/// why and returns the exit status: 2 where the options are wrong.
pub(crate) fn admin_of<R: Net<Listener = TcpListener, Stream = TcpStream> + Eprint + AllocGlobal>(
    rt: &R,
    words: &AdminWords,
) -> Result<Option<Admin>, u8> {
    let Some(word) = &words.address else {
        if words.is_open {
            let _ = rt.eprintln("--admin-open goes with --admin ADDRESS");
            return Err(2);
        }
        return Ok(None);
    };
    let address = match admin_address(word.as_str(), words.is_open) {
        Ok(address) => address,
        Err(fault) => return Err(say_fault(rt, word.as_str(), fault)),
    };
    let listener = match TcpListener::bind(rt, address) {
        Ok(listener) => listener,
        Err(error) => return Err(say_taken(rt, address, error)),
    };
    match Admin::new(rt, rt.alloc(), listener) {
        Some(admin) => Ok(Some(admin)),
        None => {
            let _ = rt.eprintln("no memory");
            Err(1)
        }
    }
}

fn say_fault(rt: &impl Eprint, word: &str, fault: AdminFault) -> u8 {
    let _ = match fault {
        AdminFault::NoAddress => eprintln!(rt;
            "--admin {word:?} is no address: it is IP:PORT, as 127.0.0.1:8404 or [::1]:8404"
        ),
        AdminFault::Reached => eprintln!(rt;
            "--admin {word}: other machines may reach that, and anybody there could look\n  Give an address of this machine alone, as 127.0.0.1:8404, or --admin-open too."
        ),
    };
    2
}

fn say_taken(rt: &impl Eprint, address: SocketAddr, error: Error) -> u8 {
    let kind = error.kind();
    let _ = rt.eprintln("read fault");
    let _ = eprintln!(rt; "--admin {address}: {error}");
    if let Some(remedy) = address_remedy(kind) {
        let _ = eprintln!(rt; "  {remedy}");
    }
    1
}
