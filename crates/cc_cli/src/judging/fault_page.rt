//! The fixed text of the page. It is written from docs/pages/fault.html by tools/page_text.py.

/// The text before the fault.
pub const FRONT: &[u8] = b"\
<!DOCTYPE html>\n<html lang=\"en\">\n<head>\n<meta charset=\"utf-8\">\n<meta name=\"viewport\" content=\"width=device-\
width, initial-scale=1\">\n<title>A judged log</title>\n<style>\n:root {\n  color-scheme: light dark;\n  --back: #f6f7\
f9; --card: #ffffff; --ink: #1a2130; --dim: #566075; --line: #cfd5df; --edge: #7c8698; --mark: #b3261e;\n  --enter: #2\
a66c4; --good: #1a7548; --fault: #b3261e; --on-fault: #ffffff; --same: #fff0b8; --same-line: #b98900; --sure: #dcefe4\
; --sure-line: #1a7548;\n}\n@media (prefers-color-scheme: dark) {\n  :root {\n    --back: #12161d; --card: #1b212b; --\
ink: #e7ebf2; --dim: #a8b2c3; --line: #39424f; --edge: #7b8799; --mark: #ff8a80;\n    --enter: #7fb0ff; --good: #6bd19\
b; --fault: #ff8a80; --on-fault: #2b0f0d; --same: #4a3d10; --same-line: #e3bd4d; --sure: #1d3a2b; --sure-line: #6bd19b\
;\n  }\n}\n* { box-sizing: border-box; }\nbody { margin: 0; background: var(--back); color: var(--ink); font: 15px/1.\
5 system-ui, sans-serif; }\nheader, main { max-width: 1500px; margin: 0 auto; padding: 0 14px; }\nheader { padding-top\
: 12px; }\nh1 { font-size: 20px; margin: 0 0 4px; overflow-wrap: anywhere; }\nh1.fault { color: var(--fault); } h1.cle\
an { color: var(--good); }\nh2 { font-size: 16px; margin: 0 0 6px; }\np { margin: 0 0 8px; max-width: 78ch; overflow-w\
rap: anywhere; }\n.dim { color: var(--dim); }\n.card { background: var(--card); border: 1px solid var(--line); border-\
radius: 8px; padding: 10px 12px; margin: 0 0 10px; min-width: 0; }\ncode { font: 13px ui-monospace, \"DejaVu Sans Mono\
\", Menlo, monospace; }\nfieldset { border: 0; margin: 0 0 6px; padding: 0; display: flex; flex-wrap: wrap; gap: 2px 1\
4px; align-items: center; }\nlegend { float: left; margin-right: 12px; padding: 0; }\nlabel { display: inline-flex; al\
ign-items: center; gap: 4px; min-height: 32px; cursor: pointer; }\ninput { width: 18px; height: 18px; margin: 0; accen\
t-color: var(--enter); }\n:focus-visible { outline: 3px solid var(--enter); outline-offset: 1px; }\n.key { display: fl\
ex; flex-wrap: wrap; gap: 2px 18px; font-size: 13.5px; margin: 6px 0 0; padding: 0; list-style: none; }\n.key i { disp\
lay: inline-block; width: 22px; height: 12px; border: 1.5px solid var(--edge); border-radius: 3px; margin-right: 6px; \
background: var(--back); vertical-align: -1px; }\n.key .is-fault { background: var(--fault); border-color: var(--fault\
); } .key .is-same { background: var(--same); border-color: var(--same-line); }\n.key .is-sure { background: var(--sur\
e); border-color: var(--sure-line); border-style: dashed; }\n#picture { position: relative; display: grid; grid-templa\
te-columns: auto minmax(0, 1fr); }\n#names { padding-right: 8px; }\n#names div { height: 34px; line-height: 34px; max-\
width: 150px; overflow: hidden; text-overflow: ellipsis; white-space: nowrap; font-size: 13.5px; }\n#scroll { overflow\
-x: auto; }\nsvg { display: block; }\nsvg text { font: 12.5px system-ui, sans-serif; fill: var(--ink); pointer-events\
: none; }\nsvg .tick { fill: var(--dim); font-size: 11.5px; }\nsvg .lane { stroke: var(--line); } svg .grid { stroke: \
var(--line); stroke-dasharray: 2 4; }\n.call { cursor: pointer; outline: none; }\n.call rect { fill: var(--back); stro\
ke: var(--edge); stroke-width: 1.5; }\n.call.same rect { fill: var(--same); stroke: var(--same-line); }\n.call.fault r\
ect { fill: var(--fault); stroke: var(--fault); } .call.fault text { fill: var(--on-fault); font-weight: 600; }\n.cal\
l .open { stroke: none; }\n.call:focus-visible rect, .call.here rect { stroke: var(--ink); stroke-width: 3; }\n.sure r\
ect { fill: var(--sure); stroke: var(--sure-line); stroke-width: 1.5; stroke-dasharray: 5 3; }\n.never { fill: var(--f\
ault); opacity: 0.13; }\n#call { min-height: 1.5em; margin: 8px 0 0; }\ntable { border-collapse: collapse; font-size: \
14px; }\n.wide { overflow-x: auto; }\ntd, th { text-align: left; padding: 3px 14px 3px 0; border-bottom: 1px solid var\
(--line); vertical-align: top; }\ntd.number, th.number { text-align: right; font-variant-numeric: tabular-nums; }\n@me\
dia (max-width: 520px) { #names div { max-width: 84px; } header, main { padding: 0 8px; } }\n@media print {\n  :root \
{ --back: #fff; --card: #fff; --ink: #000; --dim: #444; --line: #bbb; --edge: #555; --fault: #b3261e; --on-fault: #fff\
; --same: #fff0b8; --same-line: #b98900; --sure: #dcefe4; --sure-line: #1a7548; }\n  fieldset, #keys { display: none; \
}\n  #scroll { overflow: visible; } #scroll svg { width: 100%; height: auto; }\n  .card { border: 0; padding: 0; break\
-inside: avoid; }\n  * { print-color-adjust: exact; }\n}\n</style>\n</head>\n<body>\n<header>\n<h1 id=\"verdict\"></h1\
>\n<p id=\"why\"></p>\n</header>\n<main>\n<section class=\"card\" aria-labelledby=\"calls-title\">\n<h2 id=\"calls-tit\
le\">Calls, each from its begin to its end</h2>\n<fieldset id=\"scale\"><legend>Time</legend>\n<label><input type=\"ra\
dio\" name=\"scale\" value=\"order\" checked>its order alone</label>\n<label><input type=\"radio\" name=\"scale\" valu\
e=\"clock\">by the clock</label>\n</fieldset>\n<div id=\"picture\"><div id=\"names\" aria-hidden=\"true\"></div><div i\
d=\"scroll\" tabindex=\"-1\"></div></div>\n<ul class=\"key\" id=\"key\"></ul>\n<p id=\"call\" aria-live=\"polite\"></p\
>\n<p class=\"dim\" id=\"keys\">Left and right: the call that began before or after. Up and down: the next thread. Hom\
e and End: the first and the last call.</p>\n</section>\n<section class=\"card\" aria-labelledby=\"named-title\">\n<h\
2 id=\"named-title\">The calls of the fault, and those of the same items</h2>\n<div class=\"wide\"><table><thead><tr><\
th class=\"number\">line</th><th>thread</th><th>call</th><th class=\"number\">begin</th><th class=\"number\">end</th><\
/tr></thead><tbody id=\"named\"></tbody></table></div>\n</section>\n<p class=\"dim\" id=\"rest\"></p>\n</main>\n<scrip\
t type=\"text/plain\" id=\"fault\">";

/// The text between the fault and the calls.
pub const MIDDLE: &[u8] = b"\
</script>\n<script type=\"text/plain\" id=\"calls\">";

/// The text after the calls.
pub const BACK: &[u8] = b"\
</script>\n<script>\n'use strict';\n(() => {\nconst $ = id => document.getElementById(id);\nconst SVG = 'http://www.w3\
.org/2000/svg';\nconst ROW = 34, THIN = 8, MANY = 20, TICKS = 24, NARROW = 26;\n\n\
const lines = id => $(id).textContent.split('\\n').filter(line => line);\nconst fault = JSON.parse(lines('fault')[0]);\
\nconst skew = BigInt(fault.skew || 0), LATEST = (1n << 64n) - 1n;\n// A call's times, which are below 2^64, become bi\
g integers: those of its line, and those of which it is judged, which are\n// wider by the skew.\nconst parse = text =\
> {\n  const call = JSON.parse(text);\n  call.said = { begin: BigInt(call.begin), end: call.end === undefined ? null \
: BigInt(call.end) };\n  call.begin = call.said.begin < skew ? 0n : call.said.begin - skew;\n  call.end = call.said.en\
d === null ? null : call.said.end + skew > LATEST ? LATEST : call.said.end + skew;\n  return call;\n};\nconst calls = \
lines('calls').map(parse).sort((a, b) => (a.begin < b.begin ? -1 : a.begin > b.begin ? 1 : a.line - b.line));\nconst a\
t = new Map(calls.map(call => [call.line, call]));\n\n\
// ---- what a call did, in words\nconst item = value => (Array.isArray(value) ? value.join(' ') : value === null || v\
alue === undefined ? null : String(value));\nconst kind = call => ('send' in call ? 'send' : 'take' in call ? 'take' \
: 'close');\nconst its = call => (kind(call) === 'close' ? null : item(call[kind(call)]));\nconst short = call => {\
\n  if (kind(call) === 'close') return 'close';\n  if (kind(call) === 'take' && its(call) === null) return call.end ==\
= null ? 'take ..' : call.answer === 'ended' ? 'take: ended' : 'take: none';\n  return kind(call) + ' ' + its(call) + \
(call.answer ? ': ' + call.answer : '');\n};\nconst long = call => 'Line ' + call.line + ', thread ' + call.thread + '\
, ' + short(call) + ', from ' + when(call.said.begin) + (call.end === null ? ', not returned' : ' to ' + when(call.sai\
d.end));\nconst line = number => 'line ' + number;\nconst list = (words, and) => (words.length < 2 ? words.join('') : \
words.slice(0, -1).join(', ') + ' ' + and + ' ' + words[words.length - 1]);\nconst of = number => (at.get(number) && i\
ts(at.get(number)) !== null ? 'item ' + its(at.get(number)) : 'the item of line ' + number);\n\n\
// ---- the fault: the calls that it names, why they have no order, and when an item was in the queue, or can have bee\
n\nconst stays = fault.stays || [];\nconst named = [...new Set([fault.take, fault.send, fault.first, fault.second, fau\
lt.closed, fault.close, fault.call, ...(fault.sends || []), ...stays.flatMap(stay => [...stay.sends, stay.take, stay.n\
ext, stay.closed])].filter(Number.isInteger))];\nconst items = new Set(named.map(number => at.get(number)).filter(Bool\
ean).map(its).filter(value => value !== null));\nconst role = call => (named.includes(call.line) ? 'fault' : its(call\
) !== null && items.has(its(call)) ? 'same' : '');\nconst left = stay => (stay.sends.length > 1 ? 'one of ' + list([..\
.stay.sends.map(of), ...(stay.more ? [stay.more + ' others'] : [])], 'and') : of(stay.sends.length ? stay.sends[0] : s\
tay.take));\n// An item whose send hadn't ended may count since the queue was closed.\nconst sent = stay => left(stay\
) + (stay.closed ? ', sent before the queue was closed' + (stay.closed === fault.take ? '' : ' (' + line(stay.closed) \
+ ')') + ',' : '');\nconst until = stay => (stay.take ? 'until ' + line(stay.take) + ' began to take it' : stay.next \
? 'at least until ' + line(stay.next) + ' began' : 'to the end, since no call took it');\nconst others = f => (f.other\
s ? [f.others + ' others, one after another, which are not drawn'] : []);\nconst ends = f => (f.until ? ' until ' + wh\
en(BigInt(f.until)) + '.' : ', and to the end.');\nconst sends = f => (f.more || f.sends.length > MANY ? f.sends.lengt\
h + (f.more || 0) + ' lines' : list(f.sends.map(line), 'and'));\nconst WHY = {\n  'never sent': f => 'Line ' + f.take \
+ ' took ' + of(f.take) + ', and no accepted send sent it. No order has a send of this item before the take.',\n  'tak\
en before sent': f => 'The take of ' + of(f.take) + ' (' + line(f.take) + ') had ended before its send (' + line(f.sen\
d) + ') began. Each order that agrees with real time has the take first, and a queue can\\'t return an item that it do\
esn\\'t have.',\n  'taken twice': f => 'Lines ' + f.first + ' and ' + f.second + ' both took ' + of(f.first) + '. A qu\
eue returns each item once.',\n  'overtaken': f => 'The send of ' + left(stays[0]) + ' (' + list(stays[0].sends.map(li\
ne), 'and') + ') had ended before the send of ' + of(f.send) + ' (' + line(f.send) + ') began, so the first is ahead o\
f the second in the queue. Line ' + f.take + ' took the second, while the first was in the queue ' + until(stays[0]) \
+ '.',\n  'open after closed': f => 'Line ' + f.closed + (at.get(f.closed) && kind(at.get(f.closed)) === 'close' ? ' c\
losed the queue' : ' found the queue closed') + ', and had ended before line ' + f.send + ' began. That send was not t\
old that the queue is closed. A closed queue stays closed.',\n  'closed early': f => 'Line ' + f.call + ' found the qu\
eue closed, and had ended before any close began.',\n  'not full': f => 'Line ' + f.call + ' found the queue full. At \
no moment of this call can the queue have held ' + f.capacity + ' items: count each item whose send had begun, but non\
e whose take had ended.',\n  'too many': f => 'When line ' + f.call + ' had ended, the sends of ' + sends(f) + ' had e\
nded too. So few takes had begun that may have their items that more than '\n    + f.capacity + ' of them were in the \
queue' + ends(f) + (f.more ? ' The first ' + f.sends.length + ' are drawn.' : ''),\n  'no order': () => 'Lines alone o\
rder calls of one thread. Wherever one of these calls ended and the next began, the log has a fault. So no few calls s\
how it.',\n  'not empty': f => 'Line ' + f.take + (f.ended ? ' found the queue closed and empty' + (f.close ? ', and n\
o close began before ' + line(f.close) : '') + '. At each moment of this call at which the queue can have been closed\
' : ' found the queue empty. At each moment of this call')\n    + ' an item was in the queue for certain: ' + list([..\
.stays.map(stay => sent(stay) + ' ' + until(stay)), ...others(f)], 'and then') + '.',\n};\nconst there = numbers => nu\
mbers.map(number => at.get(number)).filter(Boolean);\nconst greatest = moments => moments.reduce((a, b) => (a === nul\
l || b === null ? null : a > b ? a : b));\n// No close began before this moment, and no accepted send comes after the \
close.\nconst close = at.get(fault.close);\nconst shut = sends => greatest([close ? close.begin : 0n, ...sends.map(cal\
l => call.begin)]);\nconst barOfStay = stay => {\n  const sends = there(stay.sends);\n  const out = at.get(stay.take |\
| stay.next);\n  const end = sends.length ? greatest(sends.map(call => call.end)) : null;\n  // An item that was sent \
before the close counts since the queue was closed; if a take found the end, since it can have been.\n  const closed \
= at.get(stay.closed);\n  const since = closed && sends.length ? (fault.ended ? shut(sends) : closed.end) : null;\n  c\
onst from = since !== null && (end === null || since < end) ? since : end;\n  return from === null ? null : { name: le\
ft(stay), from, to: out ? out.begin : null };\n};\nconst takes = new Map(calls.filter(call => kind(call) === 'take' &\
& its(call) !== null).map(call => [its(call), call]));\nconst leaves = (send, to) => (takes.has(its(send)) ? takes.get\
(its(send))[to] : null);\nconst barOfSend = (send, from, to) => ({ name: 'item ' + its(send), from: send[from], to: le\
aves(send, to) });\nconst blamed = at.get(fault.kind === 'not empty' ? fault.take : fault.call);\nconst during = bar =\
> blamed && bar.from <= blamed.end && (bar.to === null || bar.to >= blamed.begin);\nconst bars = {\n  'too many': () =\
> there(fault.sends).map(send => barOfSend(send, 'end', 'begin')),\n  'not full': () => calls.filter(call => kind(call\
) === 'send' && !call.answer)\n    .map(send => barOfSend(send, 'begin', 'end')).filter(during),\n};\nconst sure = bar\
s[fault.kind] ? bars[fault.kind]() : stays.map(barOfStay).filter(Boolean);\nconst BAR = {\n  'not full': 'the item ca\
n have been in the queue',\n  'too many': 'the item is in the queue, unless a take that has not returned got it',\n}[f\
ault.kind] || 'the item is in the queue for certain';\n// The moments at which no order can have what the fault says: \
of each call that it accuses, and those at which the queue\n// held too many.\nconst accused = { 'never sent': [fault.\
take], 'taken twice': [fault.first, fault.second], 'overtaken': [fault.take], 'not empty': [fault.take], 'open after c\
losed': [fault.send], 'closed early': [fault.call], 'not full': [fault.call] }[fault.kind] || [];\nconst never = there\
(accused).map(call => ({ from: call.begin, to: call.end }));\nif (fault.kind === 'taken before sent' && at.get(fault.t\
ake) && at.get(fault.send)) never.push({ from: at.get(fault.take).end, to: at.get(fault.send).begin });\nif (fault.kin\
d === 'too many' && blamed) never.push({ from: blamed.end, to: fault.until ? BigInt(fault.until) : null });\nif (fault\
.ended && never.length) never[0].from = greatest([never[0].from, shut(there(stays.flatMap(stay => stay.sends)))]);\n\n\
// ---- the times: their order alone, or the clock\nconst spans = [...calls.map(call => ({ from: call.begin, to: call.\
end })), ...sure, ...never];\nconst moments = spans.flatMap(span => (span.to === null ? [span.from] : [span.from, span\
.to]));\nconst times = [...new Set(moments.map(String))].map(BigInt).sort((a, b) => (a < b ? -1 : 1));\nconst rank = n\
ew Map(times.map((time, k) => [String(time), k]));\nconst first = times[0] || 0n, last = times[times.length - 1] || 1n\
;\n// Long times, as those of a clock, count from the first one that is drawn.\nconst LONG = 1000000n;\nconst when = t\
ime => (first < LONG ? String(time) : '+' + (time - first));\nconst chosen = () => document.querySelector('input[name=\
scale]:checked').value;\nconst threads = [...new Set(calls.map(call => call.thread))];\n\n\
const make = (name, more, inside) => {\n  const element = document.createElementNS(SVG, name);\n  for (const key in mo\
re) element.setAttribute(key, more[key]);\n  for (const child of inside || []) element.append(child);\n  return elemen\
t;\n};\nconst text = (words, more) => { const element = make('text', more); element.textContent = words; return elemen\
t; };\n\n\
function draw() {\n  const room = Math.max(300, $('scroll').clientWidth - 2);\n  const order = chosen() === 'order';\
\n  const wide = order ? Math.max(room, (times.length + 1) * NARROW) : Math.max(room, Math.min(4000, times.length * 12\
));\n  const span = last > first ? Number(last - first) : 1;\n  const x = time => 6 + (time === null ? wide - 12 : ord\
er ? rank.get(String(time)) / Math.max(1, times.length) * (wide - 30) : Number(time - first) / span * (wide - 60));\
\n  const bar = sure.length > MANY ? THIN : ROW, lanes = TICKS + sure.length * bar, high = lanes + threads.length * RO\
W;\n  const svg = make('svg', { width: wide, height: high, viewBox: '0 0 ' + wide + ' ' + high, role: 'group', 'aria-l\
abel': 'The calls of each thread, over time' });\n  const titled = words => { const title = make('title'); title.textC\
ontent = words; return title; };\n  const lasts = span => 'from ' + when(span.from) + (span.to === null ? ' on' : ' t\
o ' + when(span.to));\n  never.forEach(moment => {\n    const width = Math.max(2, x(moment.to) - x(moment.from));\
\n    const place = { class: 'never', x: x(moment.from), y: TICKS, width, height: high - TICKS };\n    svg.append(make\
('rect', place, [titled('impossible ' + lasts(moment))]));\n  });\n  // the times that have room for their number\n  l\
et past = -1;\n  times.forEach(time => {\n    const where = x(time);\n    svg.append(make('line', { class: 'grid', x1\
: where, x2: where, y1: TICKS - 4, y2: high }));\n    if (where < past) return;\n    svg.append(text(when(time), { cla\
ss: 'tick', x: where, y: 14 }));\n    past = where + when(time).length * 7 + 10;\n  });\n  const barEdges = bar === RO\
W ? sure.map((stay, row) => TICKS + row * ROW) : [TICKS];\n  const edges = [...barEdges, ...threads.map((thread, row) \
=> lanes + row * ROW), high];\n  edges.forEach(y => svg.append(make('line', { class: 'lane', x1: 0, x2: wide, y1: y, y\
2: y })));\n  sure.forEach((stay, row) => {\n    const inset = bar / 4 - 0.5;\n    const width = Math.max(3, x(stay.to\
) - x(stay.from)), y = TICKS + row * bar + inset;\n    const rect = make('rect', { x: x(stay.from), y, width, height: \
bar - 2 * inset, rx: bar / 12 });\n    svg.append(make('g', { class: 'sure' }, [rect, titled(stay.name + ', ' + lasts(\
stay))]));\n  });\n  const shown = new Map();\n  calls.forEach(call => {\n    const y = lanes + threads.indexOf(call.t\
hread) * ROW, from = x(call.begin), to = x(call.end);\n    const is = role(call), words = short(call);\n    const grou\
p = make('g', { class: 'call ' + is, tabindex: -1, role: 'button', 'aria-label': long(call) + (is === 'fault' ? ', nam\
ed by the fault' : is === 'same' ? ', of an item of the fault' : '') },\n      [make('rect', { x: from, y: y + 4, widt\
h: Math.max(4, to - from), height: ROW - 8, rx: 4, 'stroke-dasharray': call.end === null ? '5 3' : 'none' })]);\n    i\
f (words.length * 7 + 8 <= to - from) group.append(text(words, { x: from + 5, y: y + 21 }));\n    group.append(titled(\
long(call)));\n    group.addEventListener('click', () => choose(call));\n    group.addEventListener('focus', () => tel\
l(call));\n    shown.set(call, group);\n    svg.append(group);\n  });\n  $('scroll').replaceChildren(svg);\n  const na\
me = (words, height) => {\n    const element = document.createElement('div');\n    element.textContent = words;\n    i\
f (height) element.style.height = height + 'px';\n    return element;\n  };\n  const barNames = bar === ROW ? sure.map\
(stay => name(stay.name)) : [name(sure.length + ' items', sure.length * bar)];\n  $('names').replaceChildren(name('', \
TICKS), ...barNames, ...threads.map(thread => name(thread)));\n  return shown;\n}\n\n\
let drawn = draw(), here = there(accused)[0] || calls.find(call => named.includes(call.line)) || calls[0];\nfunction t\
ell(call) {\n  here = call;\n  for (const [one, group] of drawn) { group.classList.toggle('here', one === call); group\
.setAttribute('tabindex', one === call ? 0 : -1); }\n  $('call').textContent = long(call) + '.';\n}\nfunction choose(c\
all) { drawn.get(call).focus(); drawn.get(call).scrollIntoView({ block: 'nearest', inline: 'nearest' }); }\nfunction r\
edraw() {\n  const focused = document.activeElement && document.activeElement.closest('.call');\n  drawn = draw();\n  \
if (here) { tell(here); if (focused) choose(here); }\n}\n// Towards the thread that is `by` lanes away: its call that \
began nearest to this one.\nfunction beside(by) {\n  const row = threads.indexOf(here.thread) + by;\n  const far = cal\
l => { const d = call.begin - here.begin; return d < 0n ? -d : d; };\n  return calls.filter(call => call.thread === th\
reads[row]).reduce((a, b) => (a === null || far(b) < far(a) ? b : a), null);\n}\n$('scroll').addEventListener('keydown\
', key => {\n  if (!here || key.altKey || key.ctrlKey || key.metaKey) return;\n  const k = calls.indexOf(here);\n  con\
st to = { ArrowLeft: () => calls[k - 1], ArrowRight: () => calls[k + 1], ArrowUp: () => beside(-1), ArrowDown: () => b\
eside(1), Home: () => calls[0], End: () => calls[calls.length - 1] }[key.key];\n  if (!to) return;\n  key.preventDefau\
lt();\n  const call = to();\n  if (call) choose(call);\n});\n\n\
// ---- the words around the picture\nconst verdict = fault.kind ? 'fault' : fault.line.startsWith('judge clean') ? 'c\
lean' : '';\ndocument.title = fault.line;\n$('verdict').textContent = fault.line;\n$('verdict').className = verdict;\n\
$('why').textContent = WHY[fault.kind] ? WHY[fault.kind](fault) : verdict === 'clean' ? 'All calls have one order tha\
t agrees with real time, in which a queue gives the same answers.' : verdict === 'fault' ? 'The calls that the fault n\
ames have no legal order.' : 'Lines alone order calls of one thread, in too many places to try each order. So neither \
an order nor a fault was found.';\nconst key = (kind, words) => { const element = document.createElement('li'), box = \
document.createElement('i'); box.className = kind; element.append(box, words); return element; };\nif (verdict === 'fa\
ult') $('key').append(key('is-fault', 'named by the fault; the impossible moments are shaded'), key('is-same', 'of an \
item of the fault'), key('', 'another call'), ...(sure.length ? [key('is-sure', BAR)] : []));\ncalls.filter(call => ro\
le(call)).forEach(call => {\n  const row = document.createElement('tr');\n  [call.line, call.thread, short(call), when\
(call.said.begin), call.end === null ? 'not returned' : when(call.said.end)].forEach((value, k) => {\n    const cell \
= document.createElement('td');\n    cell.textContent = value;\n    if (k !== 1 && k !== 2) cell.className = 'number';\
\n    row.append(cell);\n  });\n  $('named').append(row);\n});\n$('named-title').parentElement.hidden = verdict !== 'f\
ault';\n$('rest').textContent = calls.length === fault.calls ? 'All ' + fault.calls + ' calls of the log are shown.' \
: verdict !== 'fault' ? 'The first ' + calls.length + ' of ' + fault.calls + ' calls of the log are shown.' : calls.le\
ngth + ' of ' + fault.calls + ' calls of the log are shown: those that the fault names, those of the same items, and c\
alls at the same time' + (fault.left_out ? ' (' + fault.left_out + ' more at that time are left out)' : '') + '.' + (f\
irst < LONG ? '' : ' Times count from ' + first + '.') + (skew ? ' The picture has each call as it is judged: from ' \
+ skew + ' before its begin to ' + skew + ' after its end.' : '');\n$('scale').addEventListener('change', redraw);\nwi\
ndow.addEventListener('resize', redraw);\nif (here) {\n  tell(here);\n  // The picture begins at the call that is wron\
g.\n  const { left, right } = drawn.get(here).getBoundingClientRect(), of = $('scroll').getBoundingClientRect();\n  i\
f (right > of.right) $('scroll').scrollLeft = left - of.left - of.width / 3;\n}\n})();\n</script>\n</body>\n</html>\n";
