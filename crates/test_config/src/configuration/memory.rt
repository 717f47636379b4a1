use super::*;

// Where memory was refused, the reader says so, and reads the same text again.
fn read_in_the_end(rt: &impl Abort, alloc: Global) -> Config {
    match read(alloc, sample::SAMPLE.as_bytes()) {
        Ok(config) => config,
        Err(error) => {
            holds(
                rt,
                error == ReadError::NoMemory,
                "the sample",
                "is accepted",
            );
            read(alloc, sample::SAMPLE.as_bytes()).expect(rt, "a configuration")
        }
    }
}

fn is_the_sample(rt: &impl Abort, config: &Config) {
    holds(rt, config.servers.len() == 3, "the sample", "servers");
    holds(rt, config.acls.len() == 2, "the sample", "ACLs");
    holds(rt, config.rules.len() == 3, "the sample", "rules");
    holds(rt, config.pins.len() == 1, "the sample", "pins");
}

// The test succeeds whichever single allocation is refused. With enough memory the sample is read at once.
#[test]
fn a_refused_growth_is_told(rt: HostRuntime) {
    let config = read_in_the_end(&rt, rt.alloc());
    is_the_sample(&rt, &config);
    drop(config);
}
