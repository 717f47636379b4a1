use demo::{Looks, demo};

// All twelve requests are answered in the order of their keys, and the picture is drawn.
#[test]
fn a_demo_ends_well(rt: HostRuntime) {
    let ended = demo(&rt, Looks::Plain, "/dev/null", false);
    assert!(rt; ended.is_ok());
}

#[test]
fn a_picture_that_cannot_be_written_is_told(rt: HostRuntime) {
    let ended = demo(&rt, Looks::Coloured, "/no such folder/picture.svg", false);
    assert!(rt; matches!(ended, Err(demo::DemoFault::Picture(_))));
}
