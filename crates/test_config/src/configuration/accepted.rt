use super::*;

static ACCEPTED: [&str; 19] = [
    "mode http",
    "balance leastconn",
    "log",
    "log 127.0.0.1 local0 info",
    "description",
    "option httplog",
    "option dontlognull",
    "timeout client 5s",
    "timeout server 5s # \"x\"",
    "server b 256.1.1.1:1",
    "server b 1.2.3:65535 weight 0 maxconn 0",
    "acl known method GET",
    "acl x path {",
    "acl x path }",
    "http-request set-priority-class int(1) if known known or ! known || known",
    "http-request set-priority-class int(-0) unless { path { } known",
    "http-request set-priority-class int(1) if { path or }",
    "http-request set-priority-class req.hdr_val(a^_|~`!$%&*+-.) if !{ hdr(x) -i y }",
    "use-server a unless !known",
];

#[test]
fn what_is_accepted(rt: HostRuntime) {
    let listen = "listen w\nbind :80\nserver a h:80\nacl known path /\n";
    for line in &ACCEPTED {
        let file = joined(&rt, rt.alloc(), &[listen, line, "\n"]);
        let is_read = is_read(rt.alloc(), &file);
        drop(file);
        holds(&rt, is_read, "accepted", line);
    }
}
