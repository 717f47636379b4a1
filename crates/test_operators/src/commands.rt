use log_entries::Intake;
use log_texts::Names;
use run_control::{
    Command, Form, Misfit, ProxyState, ServerState, Wishes, command_of, json_of,
    push_servers_state, push_stat, push_state,
};
use std::alloc::{AllocError, Global};
use std::test::Fail;

fn names(alloc: Global) -> Result<Names, AllocError> {
    let mut list = Vec::new(alloc);
    list.push(String::from_str(alloc, "a")?)?;
    list.push(String::from_str(alloc, "b")?)?;
    Ok(Names::new(list))
}

fn state(alloc: Global) -> Result<ProxyState, AllocError> {
    let mut servers = Vec::new(alloc);
    servers.push(ServerState {
        up: true,
        intake: Intake::Open(4),
        served: 3,
        waiting: 5,
    })?;
    servers.push(ServerState {
        up: false,
        intake: Intake::Closed,
        served: 0,
        waiting: 0,
    })?;
    Ok(ProxyState {
        servers,
        waiting: 12,
        places: 1024,
        clients: 16,
        paused: false,
        stopping: false,
    })
}

#[test]
fn lines_are_commands(rt: HostRuntime) {
    let is_state = matches!(
        command_of(b"state".as_slice()),
        Ok(Command::State(Form::Lines))
    );
    assert!(rt; is_state);
    let is_stop = matches!(
        command_of(b" stop  --within 250".as_slice()),
        Ok(Command::Stop { within: Some(250) })
    );
    assert!(rt; is_stop);
    match command_of(b"set server web/b state maint".as_slice()) {
        Ok(Command::Drain { server, waits }) => assert!(rt; server.as_str() == "b" && !waits),
        _ => assert!(rt; false),
    }
    match command_of(b"limit a 4 5".as_slice()) {
        Err(Misfit::Bad(word)) => assert!(rt; word.as_str() == Some("5")),
        _ => assert!(rt; false),
    }
    let is_missing = matches!(command_of(b"limit a".as_slice()), Err(Misfit::Missing));
    assert!(rt; is_missing);
}

#[test]
fn wishes_outlast_a_pause(rt: HostRuntime) -> Result<(), Fail> {
    let mut wishes = Wishes::new(rt.alloc(), &[4, 0])?;
    wishes.limit(0, Intake::Open(9));
    wishes.pause();
    wishes.limit(1, Intake::Closed);
    assert_eq!(rt; wishes.intake(0), Some(Intake::Closed));
    wishes.resume();
    assert_eq!(rt; wishes.intake(0), Some(Intake::Open(9)));
    assert_eq!(rt; wishes.intake(1), Some(Intake::Closed));
    wishes.ready(0);
    assert_eq!(rt; wishes.intake(0), Some(Intake::Open(4)));
    assert_eq!(rt; wishes.intake(2), None);
    Ok(())
}

#[test]
fn the_state_is_written(rt: HostRuntime) -> Result<(), Fail> {
    let alloc = rt.alloc();
    let names = names(alloc)?;
    let state = state(alloc)?;
    let mut text = String::new(alloc);
    push_state(&mut text, &names, &state)?;
    assert_eq!(rt;
        text.as_str(),
        "server a up limit 4 served 3 waiting 5\nserver b down limit closed served 0 waiting 0\nproxy serving waiting 12 places 1024 clients 16\n"
    );
    let json = json_of(alloc, &names, &state)?;
    assert_eq!(rt;
        json.as_str(),
        "{\"phase\":\"serving\",\"waiting\":12,\"places\":1024,\"clients\":16,\"servers\":[{\"name\":\"a\",\"up\":true,\"limit\":4,\"served\":3,\"waiting\":5},{\"name\":\"b\",\"up\":false,\"limit\":null,\"served\":0,\"waiting\":0}]}"
    );
    Ok(())
}

#[test]
fn the_state_is_written_as_haproxy_does(rt: HostRuntime) -> Result<(), Fail> {
    let alloc = rt.alloc();
    let names = names(alloc)?;
    let state = state(alloc)?;
    let mut text = String::new(alloc);
    push_stat(&mut text, &names, &state)?;
    assert!(rt;
        text.as_str()
            .contains("\ndueproxy,a,5,,3,,4,,,,,,,,,,,UP,,\n")
    );
    let mut text = String::new(alloc);
    push_servers_state(&mut text, &names, &state)?;
    assert!(rt; text.as_str().contains("\n1 dueproxy 2 b - 0 8 -\n"));
    Ok(())
}

#[test]
fn a_drained_server_that_is_down_is_down_to_haproxy(rt: HostRuntime) -> Result<(), Fail> {
    let alloc = rt.alloc();
    let names = names(alloc)?;
    for (up, status) in [(true, ",DRAIN,,\n"), (false, ",DOWN,,\n")] {
        let mut state = state(alloc)?;
        if let Some(drained) = state.servers.as_mut_slice().get_mut(1) {
            drained.up = up;
        }
        let mut text = String::new(alloc);
        push_stat(&mut text, &names, &state)?;
        assert!(rt; text.as_str().contains(status), "{}", text.as_str());
    }
    Ok(())
}
