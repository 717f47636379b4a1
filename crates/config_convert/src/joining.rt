//! The joining of a frontend, its backend and their defaults to one `listen`.

use crate::acls::{Acls, Names};
use crate::binds::{BindAddress, bind_address_of, is_list, is_wrapped};
use crate::choosing::Choice;
use crate::lines::{Line, copied, words_of};
use crate::notes::{Weight, add_note};
use crate::output::{Output, push_shown};
use crate::rules::{guard_of, rule_of};
use crate::sections::{Kind, Section, defaults_of, value_of};
use crate::servers::{Around, Server, Servers};
use crate::values::{Role, lose_by_fate, take_no, take_option, take_timeout};
use proxy_words::is_name;
use std::alloc::{AllocError, Global};

const BOTH: Role = Role {
    front: true,
    back: true,
};

const FRONT: Role = Role {
    front: true,
    back: false,
};

const BACK: Role = Role {
    front: false,
    back: true,
};

const TAKES_TURNS: &str =
    "Servers would have taken turns by their weights: here the one with the least load by its weight is next.";

const BY_REQUEST: &str =
    "Requests that are alike would have gone to one server: here the one with the least load by its weight is next.";

const NOT_LISTENED: &str =
    "Nobody listens there: there is one bind, so run one proxy for each address.";

const WRAPPED: &str =
    "Clients would have spoken TLS, or PROXY: here they speak HTTP in the clear, so put what ends that before the proxy.";

const OTHER_ADDRESSES: &str = "Nobody listens at its other addresses: there is one bind.";

const OTHER_SECTION: &str = "It isn't in this listen: --frontend with its name makes one of it.";

const NO_MODE: &str =
    "HAProxy hands bytes on, whatever they are, where no mode http stands: here it is HTTP.";

const OTHER_BACKEND: &str =
    "Its requests would have gone to another backend's servers: here they go to those below.";

const FEWER: &str =
    "Requests for which its condition doesn't hold would not have come to these servers: here they do.";

const NO_PIN: &str = "Requests would have been bound to this server: here they are balanced.";

const NO_PRIORITY: &str =
    "Its condition or its expression isn't there: the class or the offset stays as it is.";

const NO_TEST: &str = "Its test isn't there, so rules that name it are left out too.";

/// The sections that are joined, and what is known of them while lines are translated.
#[derive(Drop)]
struct Joint<'a> {
    sections: &'a [Section],
    choice: Choice,
    servers: Servers,
    /// The line number of the one `bind`; 0 where there is none.
    bind: usize,
    /// The line number of the `balance` that holds; 0 where there is none.
    balance: usize,
}

/// Joins the chosen sections. The result hasn't been read by the configuration's reader yet.
pub(crate) fn join(
    alloc: Global,
    sections: &[Section],
    choice: Choice,
) -> Result<Output, AllocError> {
    let mut output = Output::new(alloc);
    let bind = bind_of(alloc, sections, choice.front)?;
    let servers = servers_of(alloc, sections, choice.back, &bind)?;
    let joint = Joint {
        sections,
        choice,
        servers,
        bind: bind.map_or(0, |(line, _)| line),
        balance: value_of(sections, choice.back, b"balance".as_slice()).map_or(
            0,
            |line| line.number,
        ),
    };
    push_globals(&mut output, sections)?;
    push_head(&mut output, &joint)?;
    take_defaults(&mut output, &joint)?;
    take_sections(&mut output, &joint)?;
    note_others(&mut output, &joint)?;
    note_unsaid(&mut output, &joint)?;
    Ok(output)
}

// Returns the line with the first address that the profile allows, one without TLS where there is one.
fn bind_of(
    alloc: Global,
    sections: &[Section],
    front: usize,
) -> Result<Option<(usize, BindAddress)>, AllocError> {
    let mut found = None;
    let Some(section) = sections.get(front) else {
        return Ok(None);
    };
    for line in section.lines.iter() {
        if line.word(0) == b"bind".as_slice() {
            if let Some(address) = bind_address_of(alloc, line)? {
                if !is_wrapped(line) {
                    return Ok(Some((line.number, address)));
                }
                if found.is_none() {
                    found = Some((line.number, address));
                }
            }
        }
    }
    Ok(found)
}

fn servers_of(
    alloc: Global,
    sections: &[Section],
    back: usize,
    bind: &Option<(usize, BindAddress)>,
) -> Result<Servers, AllocError> {
    let Some(section) = sections.get(back) else {
        return Ok(Servers {
            all: Vec::new(alloc),
        });
    };
    let defaults = defaults_of(sections, back).and_then(|at| sections.get(at));
    let wished = match (section.wants(b"allbackups"), defaults) {
        (None, Some(defaults)) => defaults.wants(b"allbackups"),
        (own, _) => own,
    };
    let around = Around {
        port: match bind {
            Some((_, address)) => Some(address.port),
            None => None,
        },
        defaults,
        all_spare: wished == Some(true),
    };
    Servers::new(alloc, section, around)
}

// Writes the global sections as they are.
fn push_globals(output: &mut Output, sections: &[Section]) -> Result<(), AllocError> {
    for section in sections {
        if section.kind == Kind::Global {
            output.add(section.head.number, &[b"global".as_slice()])?;
            push_raw(output, section)?;
            output.add(0, &[])?;
        }
    }
    Ok(())
}

fn push_raw(output: &mut Output, section: &Section) -> Result<(), AllocError> {
    for line in section.lines.iter() {
        output.add(line.number, &[b"    ".as_slice(), line.raw.as_slice()])?;
    }
    Ok(())
}

fn push_head(output: &mut Output, joint: &Joint) -> Result<(), AllocError> {
    let name = joint
        .sections
        .get(joint.choice.front)
        .map_or(b"".as_slice(), |section| section.name());
    let name = if is_name(name) {
        name
    } else {
        b"converted".as_slice()
    };
    output.add(0, &[b"listen ".as_slice(), name])?;
    output.add(0, &[b"    mode http".as_slice()])?;
    output.add(0, &[b"    balance leastconn".as_slice()])
}

// Writes the values of the defaults: those for clients from the frontend's, those for servers from the backend's.
fn take_defaults(output: &mut Output, joint: &Joint) -> Result<(), AllocError> {
    let front = defaults_of(joint.sections, joint.choice.front);
    let back = defaults_of(joint.sections, joint.choice.back);
    if front == back {
        return take_section(output, joint, front, BOTH);
    }
    take_section(output, joint, front, FRONT)?;
    take_section(output, joint, back, BACK)
}

fn take_sections(output: &mut Output, joint: &Joint) -> Result<(), AllocError> {
    let Choice { front, back } = joint.choice;
    if front == back {
        return take_section(output, joint, Some(front), BOTH);
    }
    take_section(output, joint, Some(front), FRONT)?;
    take_section(output, joint, Some(back), BACK)
}

fn take_section(
    output: &mut Output,
    joint: &Joint,
    at: Option<usize>,
    role: Role,
) -> Result<(), AllocError> {
    let Some(section) = at.and_then(|at| joint.sections.get(at)) else {
        return Ok(());
    };
    let acls = Acls::new(output.alloc, section, &mut output.names)?;
    for line in section.lines.iter() {
        take_line(output, joint, &acls, line, role)?;
    }
    Ok(())
}

fn take_line(
    output: &mut Output,
    joint: &Joint,
    acls: &Acls,
    line: &Line,
    role: Role,
) -> Result<(), AllocError> {
    let checked = joint.servers.are_checked();
    match line.word(0) {
        b"mode" | b"default-server" => Ok(()),
        b"bind" if role.front => take_bind(output, joint, line),
        b"server" if role.back => take_server(output, joint, line),
        b"balance" if role.back => take_balance(output, joint, line),
        b"retries" if role.back => take_plain(output, line),
        b"log" if role.front => take_plain(output, line),
        b"bind" | b"server" | b"balance" | b"retries" | b"log" => Ok(()),
        b"timeout" => take_timeout(output, role, line, checked),
        b"option" => take_option(output, role, line, checked),
        b"no" => take_no(output, line),
        b"acl" => take_acl(output, acls, line),
        b"http-request" => take_rule(output, acls, line),
        b"use-server" => take_pin(output, joint, acls, line),
        b"default_backend" | b"use_backend" => take_backend(output, joint, line),
        _ => lose_by_fate(output, line, label_of(line), checked),
    }
}

// Returns the number of words that name a line.
fn label_of(line: &Line) -> usize {
    match line.word(0) {
        b"http-response" | b"http-after-response" | b"tcp-request" | b"tcp-response" => 2,
        _ => 1,
    }
}

// Writes a line that both have.
fn take_plain(output: &mut Output, line: &Line) -> Result<(), AllocError> {
    if line.is_odd {
        output.comment(line, "One of its words needs quotes, which aren't there.")
    } else {
        output.keep(line.number, line.words.as_slice())
    }
}

fn take_bind(output: &mut Output, joint: &Joint, line: &Line) -> Result<(), AllocError> {
    if line.number != joint.bind {
        return output.lose(line, 2, Some(Weight::Grave), NOT_LISTENED);
    }
    if let Some(address) = bind_address_of(output.alloc, line)? {
        output.add(
            line.number,
            &[b"    bind ".as_slice(), address.text.as_slice()],
        )?;
    }
    if is_wrapped(line) {
        output.note(line, 2, Weight::Grave, WRAPPED)?;
    }
    if is_list(line) {
        output.note(line, 2, Weight::Grave, OTHER_ADDRESSES)?;
    }
    Ok(())
}

fn take_server(output: &mut Output, joint: &Joint, line: &Line) -> Result<(), AllocError> {
    let Some(server) = joint.servers.at(line.number) else {
        return Ok(());
    };
    let Server { words, lost, .. } = server;
    match words {
        None => output.lose(line, 2, lost.weight, lost.reason),
        Some(words) => {
            note_changes(output, server, line)?;
            output.keep(line.number, words)
        }
    }
}

// Notes the changes that a server's left-out words make.
fn note_changes(output: &mut Output, server: &Server, line: &Line) -> Result<(), AllocError> {
    for (word, fate) in server.changes.iter() {
        if let Some(weight) = fate.weight {
            let mut label = String::new(output.alloc);
            label.push_str("server .. ")?;
            push_shown(&mut label, word.as_slice())?;
            let about = (line.number, label.as_str());
            add_note(output.alloc, &mut output.notes, weight, about, fate.reason)?;
        }
    }
    Ok(())
}

fn take_balance(output: &mut Output, joint: &Joint, line: &Line) -> Result<(), AllocError> {
    let counts = line.number == joint.balance && joint.servers.count() > 1;
    match line.word(1) {
        b"leastconn" => Ok(()),
        b"roundrobin" | b"static-rr" | b"random" | b"first" => {
            output.lose(
                line,
                2,
                if counts { Some(Weight::Slight) } else { None },
                TAKES_TURNS,
            )
        }
        _ => output.lose(
            line,
            2,
            if counts { Some(Weight::Marked) } else { None },
            BY_REQUEST,
        ),
    }
}

fn take_acl(output: &mut Output, acls: &Acls, line: &Line) -> Result<(), AllocError> {
    let Some(words) = acls.line_of(output.alloc, line)? else {
        return output.comment(line, NO_TEST);
    };
    output.keep(line.number, &words)
}

fn take_rule(output: &mut Output, acls: &Acls, line: &Line) -> Result<(), AllocError> {
    if let Some(words) = rule_of(output.alloc, acls, line)? {
        return output.keep(line.number, &words);
    }
    match line.word(1) {
        b"set-priority-class" | b"set-priority-offset" => {
            output.lose(line, 2, Some(Weight::Marked), NO_PRIORITY)
        }
        _ => lose_by_fate(output, line, 2, true),
    }
}

fn take_pin(
    output: &mut Output,
    joint: &Joint,
    acls: &Acls,
    line: &Line,
) -> Result<(), AllocError> {
    let alloc = output.alloc;
    let found = joint.servers.named(line.word(1));
    let (Some(server), false) = (found, line.is_odd) else {
        return output.lose(line, 2, Some(Weight::Grave), NO_PIN);
    };
    let Some(names) = &server.words else {
        return output.lose(line, 2, server.lost.weight, NO_PIN);
    };
    let Some(guard) = guard_of(alloc, acls, line.behind(2))? else {
        return output.lose(line, 2, Some(Weight::Grave), NO_PIN);
    };
    let mut words = words_of(alloc, b"use-server")?;
    for word in copied(alloc, names.get(1..2).unwrap_or(&[]))? {
        words.push(word)?;
    }
    for word in guard {
        words.push(word)?;
    }
    output.keep(line.number, &words)
}

fn take_backend(output: &mut Output, joint: &Joint, line: &Line) -> Result<(), AllocError> {
    let chosen = joint
        .sections
        .get(joint.choice.back)
        .map_or(b"".as_slice(), |section| section.name());
    if line.word(1) != chosen {
        output.lose(line, 2, Some(Weight::Grave), OTHER_BACKEND)
    } else if line.words.len() > 2 && !has_default(joint) {
        output.lose(line, 2, Some(Weight::Grave), FEWER)
    } else {
        output.comment(line, "Its servers stand below.")
    }
}

// Says whether the chosen backend is the default one.
fn has_default(joint: &Joint) -> bool {
    let Some(section) = joint.sections.get(joint.choice.front) else {
        return false;
    };
    let chosen = joint
        .sections
        .get(joint.choice.back)
        .map_or(b"".as_slice(), |section| section.name());
    section
        .last(b"default_backend".as_slice())
        .is_some_and(|line| line.word(1) == chosen)
}

// Notes the other sections where clients connect.
fn note_others(output: &mut Output, joint: &Joint) -> Result<(), AllocError> {
    let Choice { front, back } = joint.choice;
    for (at, section) in joint.sections.iter().enumerate() {
        let comes_in = matches!(section.kind, Kind::Frontend | Kind::Listen);
        if comes_in && at != front && at != back && !section.has(b"disabled".as_slice()) {
            output.note(&section.head, 2, Weight::Grave, OTHER_SECTION)?;
        }
    }
    Ok(())
}

// Notes what HAProxy does where the file says nothing.
fn note_unsaid(output: &mut Output, joint: &Joint) -> Result<(), AllocError> {
    let alloc = output.alloc;
    if value_of(joint.sections, joint.choice.front, b"mode".as_slice()).is_none() {
        add_note(
            alloc,
            &mut output.notes,
            Weight::Grave,
            (0, "no mode"),
            NO_MODE,
        )?;
    }
    if joint.balance == 0 && joint.servers.count() > 1 {
        add_note(
            alloc,
            &mut output.notes,
            Weight::Slight,
            (0, "no balance"),
            TAKES_TURNS,
        )?;
    }
    Ok(())
}
