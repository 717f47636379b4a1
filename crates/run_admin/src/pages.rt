//! The HTML page. It loads nothing from elsewhere, and asks for the numbers each second.

pub(crate) const PAGE: &str = r##"<!doctype html>
<html lang="en">
<head>
<meta charset="utf-8">
<meta name="viewport" content="width=device-width, initial-scale=1">
<title>Dueproxy</title>
<style>
:root { color-scheme: light dark; --back: #f6f7f9; --card: #fff; --ink: #1b2430; --soft: #5c6b7c; --line: #d9dfe6; --busy: #2f6fb5; --free: #dfe6ee; --late: #b3261e; --good: #1e7d46; }
@media (prefers-color-scheme: dark) { :root { --back: #12161c; --card: #1b222b; --ink: #e6ebf1; --soft: #98a6b5; --line: #2d3742; --busy: #6aa5e6; --free: #2d3742; --late: #ff8a80; --good: #6fcf97; } }
* { box-sizing: border-box; }
body { margin: 0; padding: 1rem; background: var(--back); color: var(--ink); font: 15px/1.45 system-ui, sans-serif; }
header { display: flex; flex-wrap: wrap; gap: .3rem 1.4rem; align-items: baseline; margin: 0 auto 1rem; max-width: 84rem; }
h1 { font-size: 1.25rem; margin: 0; }
h2 { font-size: 1rem; margin: 0 0 .6rem; }
main { display: grid; gap: 1rem; grid-template-columns: repeat(auto-fit, minmax(min(100%, 21rem), 1fr)); max-width: 84rem; margin: 0 auto; align-items: start; }
section { background: var(--card); border: 1px solid var(--line); border-radius: .5rem; padding: .9rem 1rem; min-width: 0; }
.soft { color: var(--soft); }
.late { color: var(--late); font-weight: 600; }
.good { color: var(--good); }
.server { padding: .5rem 0; border-top: 1px solid var(--line); }
.server:first-of-type { border-top: 0; padding-top: 0; }
.row { display: flex; justify-content: space-between; gap: 0 1rem; flex-wrap: wrap; }
.slots { display: flex; flex-wrap: wrap; gap: 3px; margin-top: .35rem; }
.slots i { width: 12px; height: 12px; border-radius: 3px; background: var(--free); }
.slots i.on { background: var(--busy); }
table { border-collapse: collapse; width: 100%; font-variant-numeric: tabular-nums; }
th, td { text-align: right; padding: .2rem .4rem; border-top: 1px solid var(--line); white-space: nowrap; }
th { color: var(--soft); font-weight: 500; border-top: 0; }
th:first-child, td:first-child { text-align: left; padding-left: 0; }
.scroll { overflow-x: auto; max-height: 18rem; overflow-y: auto; }
</style>
</head>
<body>
<header><h1>Dueproxy</h1><span id="phase">&hellip;</span><span id="sums" class="soft"></span><span id="trouble" class="late" role="alert"></span></header>
<main>
<section><h2>Servers</h2><div id="servers"></div></section>
<section><h2>Queues</h2><div id="queues"></div></section>
<section><h2>Lateness in the last minute</h2><div id="minute" class="scroll"></div></section>
</main>
<script>
"use strict";
const SHOWN_SLOTS = 64;
const make = (tag, name, text) => {
  const node = document.createElement(tag);
  if (name) node.className = name;
  if (text !== undefined) node.textContent = text;
  return node;
};
const put = (id, ...nodes) => document.getElementById(id).replaceChildren(...nodes);
const time = millis => {
  const size = Math.abs(millis);
  const sign = millis < 0 ? "-" : "";
  return size < 1000 ? `${sign}${size} ms` : size < 60000 ? `${sign}${(size / 1000).toFixed(1)} s` : `${sign}${(size / 60000).toFixed(1)} min`;
};
const row = (tag, words) => {
  const line = make("tr");
  for (const word of words) line.append(word instanceof Node ? word : make(tag, "", word));
  return line;
};
const table = (heads, lines) => {
  const node = make("table");
  node.append(row("th", heads), ...lines);
  return node;
};
const slots = server => {
  const bar = make("div", "slots");
  const count = server.limit > 0 ? server.limit : server.served;
  for (let slot = 0; slot < Math.min(count, SHOWN_SLOTS); slot++) bar.append(make("i", slot < server.served ? "on" : ""));
  if (count > SHOWN_SLOTS) bar.append(make("span", "soft", `and ${count - SHOWN_SLOTS} more`));
  bar.setAttribute("role", "img");
  bar.setAttribute("aria-label", `${server.served} of ${server.limit > 0 ? server.limit : "any number of"} slots in use`);
  return bar;
};
const serverOf = server => {
  const node = make("div", "server");
  const head = make("div", "row");
  const name = make("span");
  name.append(make("strong", "", server.name), " ", make("span", server.up ? "good" : "late", server.up ? "up" : "down"));
  if (server.limit === null) name.append(" ", make("span", "late", "closed"));
  const most = server.limit === null ? "closed" : server.limit === 0 ? "no limit" : `of ${server.limit}`;
  head.append(name, make("span", "soft", `serves ${server.served} (${most}); gave ${server.direct} slots at once, ${server.granted} after a wait`));
  node.append(head, slots(server));
  return node;
};
const dueWord = (due, moment) => make("td", due < moment ? "late" : "", due < moment ? `${time(moment - due)} ago` : `in ${time(due - moment)}`);
const queueOf = (queue, moment) => {
  const node = make("div", "server");
  const name = queue.name === "*" ? "whichever server takes them" : `server ${queue.name}`;
  const head = make("div", "row");
  head.append(make("strong", "", name), make("span", "soft", queue.waiting === 1 ? "1 waits" : `${queue.waiting} wait`));
  node.append(head);
  if (queue.next.length) {
    const lines = queue.next.map((waiter, rank) => row("td", [String(rank + 1), String(waiter.ticket), String(waiter.class), dueWord(waiter.due, moment)]));
    const scroll = make("div", "scroll");
    scroll.append(table(["next", "ticket", "class", "due"], lines));
    node.append(scroll);
  }
  return node;
};
const classOf = told => row("td", [
  String(told.class), String(told.slots), String(told.late),
  make("td", told.worst > 0 ? "late" : "", told.worst === null ? "none" : time(told.worst)),
]);
const show = state => {
  put("phase", make("span", state.phase === "serving" ? "good" : "late", state.phase));
  put("sums", `${state.live} of ${state.places} places in use, ${state.outside} outside, window ${state.windows + 1} of the log ${Math.floor(100 * state.entries / state.most_entries)} % full`);
  put("servers", ...state.servers.map(serverOf));
  const queues = state.queues.filter(queue => queue.waiting || queue.name === "*");
  put("queues", ...queues.map(queue => queueOf(queue, state.moment)));
  put("minute", state.minute.length ? table(["class", "slots", "late", "worst"], state.minute.map(classOf)) : make("span", "soft", "no slot was given yet"));
};
const ask = async () => {
  try {
    const answer = await fetch("state.json", { cache: "no-store", signal: AbortSignal.timeout(4000) });
    if (!answer.ok) throw new Error(answer.statusText);
    show(await answer.json());
    put("trouble");
  } catch (error) {
    put("trouble", "no answer: what is shown is old");
  }
  setTimeout(ask, 1000);
};
ask();
</script>
</body>
</html>
"##;
