/// The sample of `docs/FORMATS.md`.
pub const SAMPLE: &str = "# A complete configuration: one listener in front of three servers.\n\
\n\
global\n\
\x20   daemon                          # all of this section is ignored\n\
\x20   maxconn 4096\n\
\n\
defaults shop\n\
\x20   mode http\n\
\x20   log 127.0.0.1 local0 info       # read, no effect\n\
\x20   option httplog\n\
\x20   option dontlognull\n\
\x20   option redispatch               # a request's last retry goes to another server\n\
\x20   option abortonclose             # a client that has gone leaves its queue\n\
\x20   retries 3\n\
\x20   timeout connect 5s\n\
\x20   timeout client 30s              # read, no effect\n\
\x20   timeout server 30s              # read, no effect\n\
\x20   timeout queue 1500ms            # the longest stay in a queue\n\
\n\
listen shop\n\
\x20   description the front of the shop\n\
\x20   bind 127.0.0.1:8080\n\
\x20   balance leastconn\n\
\n\
\x20   acl checkout path_beg /checkout /pay\n\
\x20   acl checkout method POST        # a second alternative of the same ACL\n\
\x20   acl crawler hdr(user-agent) -i bot spider\n\
\n\
\x20   # Lower classes are served first; within a class the earlier due date is.\n\
\x20   http-request set-priority-class int(-10) if checkout !crawler\n\
\x20   http-request set-priority-class int(100) if crawler\n\
\x20   http-request set-priority-offset req.hdr_val(x-due-ms) unless { path_end .png .css } or crawler\n\
\n\
\x20   use-server batch if crawler || { path_beg /reports }\n\
\n\
\x20   server fast 127.0.0.1:9001 maxconn 8 maxqueue 16 weight 2 check inter 1s rise 2 fall 3\n\
\x20   server slow localhost:9002 maxconn 4 weight 1 check\n\
\x20   server batch 127.0.0.1:9003 maxconn 1 weight 0      # takes requests by use-server alone\n";
