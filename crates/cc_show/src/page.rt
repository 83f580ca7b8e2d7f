//! The fixed text of the page. It is written from docs/pages/index.html by tools/page_text.py.

/// The text before the run.
pub const FRONT: &[u8] = b"\
<!DOCTYPE html>\n<html lang=\"en\">\n<head>\n<meta charset=\"utf-8\">\n<meta name=\"viewport\" content=\"width=device-\
width, initial-scale=1\">\n<meta http-equiv=\"Content-Security-Policy\" content=\"default-src 'none'; script-src 'unsa\
fe-inline'; style-src 'unsafe-inline'; img-src data:; base-uri 'none'; form-action 'none'\">\n<link rel=\"icon\" href=\
\"data:,\">\n<title>CC-Queue, step by step</title>\n<style>\n:root {\n  color-scheme: light dark;\n  --back: #f6f7f9; \
--card: #ffffff; --ink: #1a2130; --dim: #566075; --line: #cfd5df; --edge: #7c8698; --mark: #b3261e;\n  --enter: #2a66c\
4; --wait: #9a5c00; --serve: #1a7548; --hand: #8a3fb8; --answer: #0a7380; --rest: #667085;\n  --touch: #fff0b8; --touc\
h-line: #b98900; --turn: #dcefe4; --was: #fbe4e2; --is: #dff2e6;\n  --names: 268px; --bar: 100px;\n}\n@media (prefers-\
color-scheme: dark) {\n  :root {\n    --back: #12161d; --card: #1b212b; --ink: #e7ebf2; --dim: #a8b2c3; --line: #39424\
f; --edge: #7b8799; --mark: #ff8a80;\n    --enter: #7fb0ff; --wait: #f0b35a; --serve: #6bd19b; --hand: #d79bff; --answ\
er: #67d3de; --rest: #97a1b2;\n    --touch: #4a3d10; --touch-line: #e3bd4d; --turn: #1d3a2b; --was: #4a2422; --is: #1d\
3a2b;\n  }\n}\n* { box-sizing: border-box; }\n[hidden] { display: none !important; }\nhtml { scroll-padding-top: calc(\
var(--bar) + 12px); }\nbody { margin: 0; background: var(--back); color: var(--ink); font: 14px/1.45 system-ui, sans-s\
erif; }\nheader, main, footer { max-width: 1680px; margin: 0 auto; padding: 0 14px; }\nheader { display: flex; flex-wr\
ap: wrap; gap: 2px 18px; align-items: center; padding-top: 6px; padding-bottom: 4px; }\nh1 { font-size: 18px; margin: \
0; }\nh2 { font-size: 15px; margin: 0 0 4px; }\nh3 { font-size: 13px; margin: 8px 0 3px; color: var(--dim); font-weigh\
t: 600; }\np { margin: 0 0 5px; }\na { color: var(--enter); }\nnav { display: flex; flex-wrap: wrap; gap: 0 4px; }\nna\
v a, .pick { display: inline-flex; align-items: center; min-height: 32px; padding: 0 8px; }\n.skip { position: absolut\
e; left: -999px; }\n.skip:focus { left: 8px; top: 4px; background: var(--card); padding: 8px; z-index: 9; }\n.dim { co\
lor: var(--dim); }\n.card { background: var(--card); border: 1px solid var(--line); border-radius: 8px; padding: 8px 1\
1px; margin: 0 0 8px; min-width: 0; }\ncode, .mono { font-family: ui-monospace, \"DejaVu Sans Mono\", Menlo, monospace\
; font-size: .95em; }\n.mono { font-size: 12.5px; }\n.row { display: flex; flex-wrap: wrap; gap: 5px 6px; align-items\
: center; }\nbutton, select, input, textarea { font: inherit; color: inherit; background: var(--back); border: 1px sol\
id var(--edge); border-radius: 6px; max-width: 100%; }\nbutton, select, input:not([type=checkbox]):not([type=range]) \
{ padding: 2px 10px; min-height: 32px; }\nbutton { min-width: 32px; }\nbutton, select, summary, label.file { cursor: p\
ointer; }\nbutton:hover, select:hover { border-color: var(--ink); }\nbutton:disabled { color: var(--dim); cursor: defa\
ult; border-style: dashed; }\nbutton.here, .pick.here, button[aria-pressed=true] { background: var(--touch); border-co\
lor: var(--touch-line); color: var(--ink); }\n:focus-visible { outline: 3px solid var(--enter); outline-offset: 1px; }\
\n::placeholder { color: var(--dim); opacity: 1; }\ninput[type=checkbox] { width: 20px; height: 20px; margin: 6px; ver\
tical-align: middle; }\nsummary { font-weight: 600; min-height: 32px; padding: 5px 0; }\nkbd { border: 1px solid var(-\
-edge); border-radius: 4px; padding: 0 4px; font: 12.5px ui-monospace, monospace; }\n.term { border-bottom: 1px dotte\
d currentColor; font-style: normal; cursor: help; }\n#tip { position: absolute; z-index: 20; max-width: min(320px, 94v\
w); background: var(--ink); color: var(--card); border-radius: 6px; padding: 6px 10px;\n  font-size: 13px; }\n.bad { b\
ackground: var(--mark); color: var(--card); padding: 8px 12px; border-radius: 8px; margin: 0 0 8px; font-weight: 600; \
}\n.good { color: var(--serve); font-weight: 600; }\n.intro { display: grid; grid-template-columns: minmax(0, 5fr) min\
max(300px, 6fr); gap: 6px 24px; align-items: start; }\n.intro > ol { margin: 0 0 8px; padding-left: 20px; } .intro > o\
l > li { margin-bottom: 5px; }\nbody.own-run #live { display: none; } body.own-run .intro { grid-template-columns: min\
max(0, 1fr); } #live { min-height: 380px; } #live h3 { margin: 4px 0 0; } #live-event { min-height: 2.9em; } #live .bo\
xes:not(.many) { flex-wrap: wrap; width: auto; font-size: 12px; }\n#live .ends { min-height: 1.5em; } #live .end svg, \
#live .outside { display: none; } #live .nodes { gap: 0 12px; } #live-play { min-width: 90px; min-height: 40px; font-w\
eight: 600; }\n#turns text, #lanes text { fill: var(--ink); font: 13px system-ui, sans-serif; }\n.link { stroke: var(-\
-ink); stroke-width: 1.6; fill: none; } .tip-of-link { fill: var(--ink); stroke: none; }\n.choose { display: grid; gri\
d-template-columns: 9fr 8fr 7fr 6fr; gap: 4px 20px; }\n#tour, #examples { columns: 2; column-gap: 24px; } .choose li \
{ break-inside: avoid; }\n.choose ol, .choose ul { margin: 0; padding: 0 0 0 22px; } .choose ul { list-style: none; pa\
dding-left: 0; }\n.own { display: grid; grid-template-columns: repeat(auto-fit, minmax(min(100%, 150px), 1fr)); gap: 6\
px 12px; align-items: end; }\n.own label { display: block; font-size: 13px; } .own input, .own select { display: block\
; width: 100%; }\n#stage { display: grid; grid-template-columns: minmax(0, 1fr); gap: 0 8px; scroll-margin-top: calc(0\
px - var(--bar) - 4px); }\n#player { position: sticky; top: 0; z-index: 3; box-shadow: 0 3px 8px rgb(0 0 0 / 12%); }\n\
#stage:focus, #player:focus { outline: none; }\n#slider { flex: 1 1 90px; min-width: 60px; height: 32px; margin: 0; pa\
dding: 0; accent-color: var(--enter); }\n#where { font-variant-numeric: tabular-nums; }\n#event { margin: 5px 0 0; min\
-height: 2.9em; }\n#breaks:not(:empty) { background: var(--mark); color: var(--card); border-radius: 6px; padding: 4p\
x 10px; margin-top: 4px; font-weight: 600; }\n#player:not(.open) #more { display: none; } #more { width: 100%; }\n@med\
ia (min-width: 1100px) {\n  #event { min-height: 1.45em; }\n  #stage { grid-template-columns: minmax(0, 1fr) 436px; gr\
id-template-rows: auto auto auto auto auto auto 1fr; }\n  #stage > * { grid-column: 1; } #stage > #player { grid-colum\
n: 1 / -1; }\n  #stage > #code { grid-column: 2; grid-row: 2 / span 6; align-self: start; position: sticky; top: calc(\
var(--bar) + 8px);\n    max-height: calc(100vh - var(--bar) - 34px); overflow: auto; }\n  #stage:not(.pair) .side .par\
ts { flex-wrap: nowrap; } #stage:not(.pair) .side .outside { flex: 1 100 0; min-width: 180px; }\n  .side .parts > .str\
ip { flex: 0 1 auto; }\n  #stage.pair > #lesson, #stage.pair > #sides { grid-column: 1 / -1; } #stage.pair > #code { g\
rid-row: 4 / span 4; }\n}\n/* On a low screen, as at 200 %, the player scrolls with the page. */\n@media (max-height: \
520px), (max-width: 640px) and (max-height: 700px) { #player { position: static; } #stage > #code { position: static; \
max-height: none; }\n  html { scroll-padding-top: 8px; } }\n.top { display: flex; flex-wrap: wrap; gap: 2px 16px; alig\
n-items: center; justify-content: space-between; }\n#body { width: 10.5em; }\n#hint { color: var(--wait); font-weight\
: 600; }\n.moment { display: grid; grid-template-columns: auto 1fr; gap: 8px; align-items: start; margin-top: 4px; }\n\
#moments { display: flex; flex-wrap: wrap; gap: 4px; }\n#task { margin-top: 4px; } #task > * { margin-bottom: 4px; }\n\
#lanes { display: grid; grid-template-columns: var(--names) minmax(0, 1fr); overflow: auto; max-height: max(118px, cal\
c(100vh - 652px)); position: relative; }\n#turns svg, #lanes svg { display: block; }\n#lanes .code { font: 600 12px sy\
stem-ui, sans-serif; fill: var(--card); text-anchor: middle; }\n#lanes .later .code { fill: var(--ink); }\n#lanes text\
.tick, #turns text.side { fill: var(--dim); font-size: 12px; }\n#lanes .lane { stroke: var(--line); }\n#lanes .cell, #\
turns .turn { cursor: pointer; }\n#lanes .now { fill: none; stroke: var(--ink); stroke-width: 2.5; }\n#turns .turn rec\
t { fill: var(--turn); stroke: var(--serve); } #turns .turn rect.later { fill: none; stroke-dasharray: 3 3; }\n#turns \
.now { stroke: var(--ink); stroke-width: 2; }\n#turns .turn text { font-size: 12.5px; }\n.pass { display: flex; height\
: 36px; padding: 2px 6px 2px 0; gap: 4px; }\n.pass button { padding: 0 6px; white-space: nowrap; overflow: hidden; }\n\
.pass .step { flex: 1; min-width: 0; display: flex; gap: 6px; align-items: center; text-align: left; }\n.pass .step sp\
an { flex: 1; overflow: hidden; text-overflow: ellipsis; color: var(--dim); font-size: 12.5px; }\n.pass .step b { min-\
width: 22px; }\n.pass .step i.next { font-size: 12px; font-style: normal; font-weight: 600; }\n.pass.moved .step { bor\
der-color: var(--ink); border-width: 2px; }\n.dot { display: inline-block; flex: none; width: 11px; height: 11px; bord\
er-radius: 3px; margin-right: 3px; }\n.legend { font-size: 12.5px; margin: 4px 0 0; } .legend span { display: inline-b\
lock; margin-right: 10px; }\n.strip { overflow-x: auto; padding-bottom: 3px; } .strip.roomy, .list.roomy { overflow: v\
isible; }\n.boxes { display: flex; flex-wrap: nowrap; align-items: stretch; list-style: none; margin: 0; padding: 0; w\
idth: max-content; font-size: 12.5px; }\n.boxes > li { display: flex; align-items: flex-end; }\n#stage.pair .boxes { f\
ont-size: 12px; } #stage.pair .boxes:not(.many) { flex-wrap: wrap; width: auto; }\n.parts { display: flex; flex-wrap: \
wrap; gap: 4px 2.2em; align-items: flex-end; } .parts > * { max-width: 100%; min-width: 0; } .outside h3 { margin: 0; \
}\n.boxes.loose > li { margin-right: .7em; }\n.boxes .done-one { margin-right: .6em; } .boxes .apart { border-left: 2p\
x dotted var(--edge); padding-left: .9em; }\n.stack { display: flex; flex-direction: column; justify-content: flex-end\
; }\n.ends { display: flex; gap: .7em; justify-content: center; min-height: 2.7em; align-items: flex-end; }\n.end { di\
splay: flex; flex-direction: column; align-items: center; line-height: 1.2; font-weight: 600; color: var(--enter); whi\
te-space: nowrap; }\n.end.tail { color: var(--answer); } .end.cursor { color: var(--hand); } .end.looks { color: var(-\
-wait); } .end.serves { color: var(--serve); }\n.end.note { color: var(--dim); font-weight: 400; }\n.standing { displa\
y: flex; flex-direction: column; } .standing:only-child { margin: 0 -1.6em; } .end.stands { display: block; text-align\
: center; line-height: 1.35; }\n.token { background: var(--enter); color: var(--card); border-radius: 9px; padding: 0 \
6px; display: inline-block; }\n.end.serves .token { background: var(--serve); }\n.traveller { position: absolute; z-in\
dex: 15; pointer-events: none; background: var(--touch); color: var(--ink); border: 2px solid var(--touch-line); borde\
r-radius: 9px;\n  padding: 0 8px; font-weight: 700; font-size: 14px; }\n.box.differs { outline: 3px solid var(--mark)\
; outline-offset: -3px; }\n.end.touch { background: var(--touch); color: var(--ink); border-radius: 4px 4px 0 0; paddi\
ng: 0 4px; }\n.end svg { width: 1.1em; height: 1.1em; } .end svg path { stroke: currentColor; stroke-width: 2; fill: n\
one; }\n.end svg .tip-of-link { fill: currentColor; stroke: none; }\n.box { display: block; border: 1.5px solid var(--\
edge); border-radius: 6px; padding: .15em .6em; line-height: 1.35; background: var(--back); min-width: 6.6em;\n  white\
-space: nowrap; }\n.box.touch, tr.touch td, .word.touch { background: var(--touch); border-color: var(--touch-line); }\
\n.box.touch .dim, tr.touch .pending { color: var(--ink); }\n.box.serve { border-color: var(--serve); border-width: 2.\
5px; } .box.wait { border-color: var(--wait); }\n.box.done, .box.dummy { border-style: dashed; } .box.free { border-st\
yle: dotted; color: var(--dim); }\n.box.prepare { border-color: var(--hand); border-style: dashed; border-width: 2px; \
}\n.line { display: block; }\n.arrow { flex: none; align-self: flex-end; padding: 0 .25em; margin-bottom: 1.5em; color\
: var(--dim); white-space: nowrap; display: flex;\n  flex-direction: column; align-items: center; }\n.arrow svg { disp\
lay: block; width: 2.8em; height: 1.1em; } .arrow.none { color: var(--wait); }\n.arrow.none .link { stroke: var(--wait\
); stroke-dasharray: 3 3; }\n.arrow.wrong { color: var(--mark); font-weight: 600; }\n.words { display: flex; flex-wrap\
: wrap; gap: 3px 5px; margin-top: 6px; }\n.word { border: 1px solid var(--line); border-radius: 5px; padding: 1px 6px\
; font-size: 12.5px; }\ntable { border-collapse: collapse; width: 100%; font-size: 12.5px; }\ntd, th { padding: 0 10p\
x 0 0; border: 0; vertical-align: top; white-space: nowrap; text-align: left; font-weight: inherit; }\n.two { display\
: grid; grid-template-columns: repeat(auto-fit, minmax(min(100%, 400px), 1fr)); gap: 0 8px; align-items: start; }\n.co\
lumns { display: grid; grid-template-columns: repeat(auto-fit, minmax(min(100%, 230px), 1fr)); gap: 0 12px; }\n#sides \
{ display: grid; grid-template-columns: minmax(0, 1fr); gap: 0 8px; align-items: start; }\n.pair .chain { min-width: 1\
00%; } .pair .chain.idle { display: none; }\n@media (min-width: 900px) { .pair #sides, #lecture.pair #lecture-sides { \
grid-template-columns: minmax(0, 1fr) minmax(0, 1fr); } }\n.side { min-width: 0; } .side > h2, .side > p { padding: 0 \
2px; margin: 0 0 4px; } #side-event, #other-event { min-height: 2.9em; }\n#side-event:empty { display: none; }\n.chain\
s { display: flex; flex-wrap: wrap; gap: 0 8px; }\n.chain { flex: 1 1 0; min-width: min(100%, 260px); } .chain h2, .ch\
ain > div, .chain .head { display: inline; } .chain h2 { margin-right: 8px; }\n.chain .head { color: var(--dim); font-\
size: 13px; }\n.chain.idle { flex: 0 1 auto; min-width: 0; align-self: flex-start; } .chain.idle .nodes { display: non\
e; }\n.nodes { display: flex; flex-wrap: wrap; gap: 0 16px; align-items: flex-end; } .nodes > * { min-width: 0; max-wi\
dth: 100%; } .nodes .words { margin: 0 0 6px; }\n.of-list h2, .of-list > div, .of-list > div > .words { display: inlin\
e; } .of-list .word { display: inline-block; margin: 0 4px 3px 0; }\n.of-list h2 { margin-right: 8px; }\n.list { posit\
ion: relative; max-height: 190px; overflow: auto; }\n.pending { color: var(--wait); }\n.program { list-style: none; ma\
rgin: 0; padding: 0; font: 12.5px/1.5 ui-monospace, \"DejaVu Sans Mono\", Menlo, monospace; }\n.program li { display: \
flex; justify-content: space-between; gap: 8px; padding: 0 6px; border-left: 4px solid transparent; white-space: pre; \
}\n.program li span:last-child { color: var(--dim); font-family: system-ui, sans-serif; font-size: 12px; }\n.program l\
i.lit { background: var(--touch); border-left-color: var(--touch-line); font-weight: 700; } .program li.lit span:last-\
child { color: var(--ink); }\n.program li.changed { border-left-color: var(--mark); background: var(--was); } .progra\
m li.changed.lit { background: var(--touch); }\n#code-head { position: sticky; top: -8px; margin-top: -8px; padding-to\
p: 8px; background: var(--card); }\n#holds { border-bottom: 1px solid var(--line); padding-bottom: 3px; min-height: 5e\
m; } .part:first-child h3 { margin-top: 5px; }\n#law .row { flex-wrap: nowrap; align-items: flex-start; } #law .row bu\
tton { flex: none; } #law .row span { padding-top: 5px; }\n.change { font-size: 12.5px; white-space: pre-wrap; overflo\
w-wrap: anywhere; margin: 2px 0; padding: 2px 6px; border-radius: 4px; display: block;\n  text-decoration: none; }\nde\
l.change { background: var(--was); } ins.change { background: var(--is); }\npre, textarea { margin: 0; max-height: 320\
px; overflow: auto; white-space: pre-wrap; overflow-wrap: anywhere; }\ntextarea { display: block; width: 100%; height\
: 7em; padding: 4px 8px; }\ndl { display: grid; grid-template-columns: auto 1fr; gap: 2px 14px; margin: 0; font-size: \
13px; }\ndt { font-weight: 600; } dd { margin: 0; color: var(--dim); }\nfooter { padding-bottom: 24px; font-size: 13px\
; }\nbody.bare header, body.bare #intro, body.bare #choose, body.bare footer { display: none; } body.bare main { paddi\
ng-top: 8px; }\n/* The lecture: one moment a screen. */\n#handout { display: none; max-width: 900px; margin: 0 auto; p\
adding: 14px; } body.handout #handout { display: block; }\nbody.handout > header, body.handout > main, body.handout > \
footer, body.handout > .skip { display: none; }\n#handout .answer { border-bottom: 1px solid var(--edge); min-height: \
3em; }\nbody.lecture { overflow-x: clip; } body.lecture > header, body.lecture > main, body.lecture > footer, body.lec\
ture > .skip { display: none; }\n#lecture { min-height: 100vh; display: grid; grid-template-columns: minmax(0, 1fr); g\
rid-template-rows: auto auto 1fr auto auto; gap: 8px; padding: 14px 26px;\n  max-width: 2800px; margin: 0 auto; }\n#le\
cture h2 { font-size: clamp(20px, 2.3vw, 60px); line-height: 1.2; margin: 0; } #lecture .top { align-items: baseline; \
}\n#lecture-count { font-size: clamp(14px, 1.3vw, 34px); color: var(--dim); white-space: nowrap; }\n#lecture-text { fo\
nt-size: clamp(18px, 2vw, 52px); line-height: 1.35; margin: 0; min-height: 1.35em; }\n#lecture-sides { display: grid; \
grid-template-columns: minmax(0, 1fr); gap: 10px 26px; align-items: center; }\n#lecture h3 { font-size: clamp(15px, 1.\
35vw, 36px); margin: 0 0 2px; font-weight: 400; } #lecture .side > h2 { font-size: clamp(17px, 1.6vw, 42px); }\n#lectu\
re .part-chain .boxes { font-size: var(--of-chain, 20px); } #lecture .part-list .boxes { font-size: var(--of-list, 20p\
x); }\n#lecture.pair h3 { font-size: clamp(14px, 1.1vw, 28px); } #lecture.pair #lecture-sides { align-items: start; } \
#lecture.pair .part { margin-bottom: 4px; }\n#lecture .part { margin-bottom: 10px; }\n#lecture-line { margin: 0; min-h\
eight: 3.4em; font-size: clamp(16px, 1.75vw, 46px); display: grid;\n  grid-template-columns: repeat(auto-fit, minmax(m\
in(100%, 420px), 1fr)); gap: 4px 26px; align-items: center; }\n#lecture-line p { margin: 0; background: var(--touch); \
border-left: 6px solid var(--touch-line); border-radius: 4px; padding: 4px 14px; }\n#lecture-line span { color: var(--\
dim); font-size: .75em; margin-right: 1em; } #lecture-line p span { color: var(--ink); }\n#lecture-line code { font-si\
ze: .95em; white-space: pre-wrap; font-weight: 600; }\n#lecture-code { display: grid; grid-auto-flow: column; grid-aut\
o-columns: minmax(0, 1fr); gap: 26px; align-content: center; }\n#lecture-code .program { font-size: clamp(12.5px, min(\
2.1vw, 66vh / var(--lines) / 1.5), 44px); } #lecture.pair #lecture-code .program { font-size: clamp(12px, min(1.05vw, \
66vh / var(--lines) / 1.5), 30px); }\n#lecture-code li { white-space: pre-wrap; } #lecture-code li span:last-child { d\
isplay: none; }\n#lecture nav { gap: 8px; align-items: center; } #lecture nav button, #lecture nav select { min-height\
: 40px; font-size: 16px; } #lecture nav .gap { flex: 1; }\nbody.lecture #tip { font-size: clamp(15px, 1.5vw, 22px); ma\
x-width: min(560px, 94vw); }\nbody.blank #lecture > *, body.blank #tip { visibility: hidden; } body.blank { background\
: #000; }\n@media (max-height: 700px) { #lecture { padding: 6px 26px; gap: 4px; } #lecture-line { min-height: 2em; } }\
\n@media (max-width: 1180px) { #lecture.pair .boxes:not(.many) { flex-wrap: wrap; width: auto; } .intro { grid-templat\
e-columns: minmax(0, 1fr); } #live { order: -1; } .choose { grid-template-columns: 1fr 1fr; } }\n@media (max-width: 90\
0px) { .boxes:not(.many) { flex-wrap: wrap; width: auto; } .choose { grid-template-columns: minmax(0, 1fr); }\n  #tour\
, #examples { columns: auto 220px; } .choose li { margin: 2px 0; } }\n@media (max-width: 640px) {\n  :root { --names: \
104px; }\n  header, main, footer { padding-left: 8px; padding-right: 8px; }\n  .card { padding: 7px 8px; }\n  .pass .s\
tep span, .pass .step i.next { display: none; }\n  .moment { grid-template-columns: minmax(0, 1fr); }\n  #event { font\
-size: 13px; max-height: 8.4em; overflow: auto; }\n  #event .dim { display: none; }\n  dl { grid-template-columns: min\
max(0, 1fr); } dd { margin-bottom: 6px; }\n  .program { font-size: 12px; } .program li { white-space: pre-wrap; } .pro\
gram li span { overflow-wrap: anywhere; }\n  #lecture { padding: 8px; }\n  #lecture nav .gap { display: none; }\n}\n@m\
edia (max-width: 400px) { td, th { white-space: normal; } .program li span:last-child { display: none; } .pass { paddi\
ng-right: 2px; gap: 2px; } }\n@media (prefers-reduced-motion: no-preference) {\n  .box.touch, .word.touch, .end.touch \
{ animation: flash .6s ease-out; }\n  @keyframes flash { from { box-shadow: 0 0 0 6px var(--touch-line); } to { box-sh\
adow: 0 0 0 0 transparent; } }\n}\n@media print {\n  :root { color-scheme: light; --back: #fff; --card: #fff; --ink: #\
000; --dim: #444; --line: #999; --edge: #555; --mark: #8c1d18; --enter: #1d4f9e;\n    --wait: #7a4900; --serve: #125c3\
8; --hand: #6b2d92; --answer: #075b66; --rest: #555; --touch: #fff0b8; --touch-line: #8a6700; --turn: #dcefe4;\n    --\
was: #fbe4e2; --is: #dff2e6; }\n  * { print-color-adjust: exact; -webkit-print-color-adjust: exact; animation: none !i\
mportant; }\n  body { font-size: 10pt; } #program { columns: 2; } .part { break-inside: avoid; }\n  body:not(.begins) \
#intro, nav, #choose, footer, .skip, #player .row, #moments, #lesson .row, .more, .leap, #add, #texts, #tip, #parting \
button, #task .row { display: none !important; }\n  #player, #stage > #code, #code-head { position: static; box-shadow\
: none; max-height: none; overflow: visible; }\n  #lanes, .list, .strip { max-height: none; overflow: visible; } #cell\
s, #turns { overflow: hidden; }\n  #law button { border: 0; padding: 0; min-height: 0; background: none; font-weight: \
600; } #law .row span { padding-top: 0; }\n  details:not([open]), .chain.idle { display: none; }\n  .hints { break-bef\
ore: page; } .card { break-inside: avoid; } .boxes { width: auto; flex-wrap: wrap; } .program li { white-space: pre-wr\
ap; }\n  #stage { display: block; } #lecture { min-height: 0; padding: 0; } #lecture .part .boxes { font-size: 15px; \
} #lecture.pair .part .boxes { font-size: 12px; }\n  .pair #sides, #lecture.pair #lecture-sides { grid-template-column\
s: minmax(0, 1fr) minmax(0, 1fr); }\n}\n</style>\n</head>\n<body>\n<a class=\"skip\" href=\"#stage\">To the run</a>\n<\
header>\n<h1>CC-Queue, step by step</h1>\n<nav aria-label=\"Parts of this page\"><a href=\"#choose\">Tour and exercise\
s</a><a href=\"#stage\">The run</a><a href=\"#lecture=lone\">Lecture</a>\n<a href=\"#own\">Your own queue</a><a href=\
\"#glossary\">Words</a><a href=\"#keys\">Keys</a></nav>\n</header>\n<main>\n<noscript><p class=\"bad\">The pictures ar\
e drawn by the script of this page, which is turned off. The events and the report are in its source.</p></noscript>\n\
<div id=\"alarm\" role=\"alert\"></div>\n<section class=\"card\" id=\"intro\" aria-labelledby=\"intro-title\">\n<p>Thi\
s page shows CC-Queue (Fatourou and Kallimanis, PPoPP 2012) step by step. It is the algorithm of Vahepito, a queue tha\
t is proved for every\norder of these steps. Vahepito's program <code>ccq</code> writes this page for a run of your ow\
n: <code>ccq show PLAN &gt; page.html</code>.</p>\n<h2 id=\"intro-title\">The algorithm in five sentences</h2>\n<div c\
lass=\"intro\">\n<ol>\n<li>CC-Queue is a first-in, first-out queue that many threads use at once: each\n<dfn class=\"t\
erm\" tabindex=\"0\" role=\"button\" data-word=\"pass\" aria-describedby=\"word-pass\">pass</dfn> is one of them, a se\
nder that appends items or a receiver\nthat takes them.</li>\n<li>Senders don't contend for a lock: each swaps a <dfn \
class=\"term\" tabindex=\"0\" role=\"button\" data-word=\"node\" aria-describedby=\"word-node\">node</dfn> into a\n<df\
n class=\"term\" tabindex=\"0\" role=\"button\" data-word=\"chain\" aria-describedby=\"word-chain\">chain</dfn> and wr\
ites its request there, and one of them, the\n<dfn class=\"term\" tabindex=\"0\" role=\"button\" data-word=\"combiner\
\" aria-describedby=\"word-combiner\">combiner</dfn>, serves the requests of all, up to a\n<dfn class=\"term\" tabinde\
x=\"0\" role=\"button\" data-word=\"bound\" aria-describedby=\"word-bound\">bound</dfn>, and then hands over.</li>\n<l\
i>The items are in a linked list whose first node is a\n<dfn class=\"term\" tabindex=\"0\" role=\"button\" data-word=\
\"dummy\" aria-describedby=\"word-dummy\">dummy</dfn>, so that senders append at one end while receivers, who\nhave ch\
ains of their own, take at the other.</li>\n<li>Each <dfn class=\"term\" tabindex=\"0\" role=\"button\" data-word=\"st\
ep\" aria-describedby=\"word-step\">step</dfn> of a pass reads or changes one word, the steps of\nall passes interleav\
e in any order, and for every order it is proved that items leave in the order in which they came.</li>\n<li>On this p\
age you choose the order: follow the tour, make the steps of each pass yourself, see what broken queues lose, and solv\
e exercises.</li>\n</ol>\n<div id=\"live\" class=\"side\"><div class=\"row\"><button id=\"live-play\" aria-pressed=\"f\
alse\">play</button><a class=\"pick\" href=\"#stage\">each step of this run, and its program</a></div>\n<p id=\"live-e\
vent\"></p><div id=\"live-picture\" inert></div></div>\n</div>\n</section>\n<section class=\"card\" id=\"choose\" aria\
-labelledby=\"choose-title\">\n<h2 id=\"choose-title\">Each of these opens a run that you can drive on</h2>\n<div clas\
s=\"choose\">\n<div><h3>Guided tour</h3><ol id=\"tour\"></ol></div>\n<div><h3>Scenarios</h3><ul id=\"examples\"></ul><\
/div>\n<div><h3>Broken queues, beside the right one</h3><ul id=\"broken\"></ul></div>\n<div><h3>Exercises</h3><ul id=\
\"exercise-list\"></ul><p><a class=\"pick\" href=\"#handout\">all of them, to be printed</a></p></div>\n</div>\n<detai\
ls id=\"own\"><summary>Your own queue, or a plan</summary>\n<form id=\"own-form\" class=\"own\">\n<label>senders<inpu\
t name=\"senders\" type=\"number\" min=\"1\" max=\"64\" value=\"2\"></label>\n<label>receivers of a group<input name=\
\"receivers\" type=\"number\" min=\"1\" max=\"64\" value=\"1\"></label>\n<label>groups<input name=\"groups\" type=\"nu\
mber\" min=\"1\" max=\"8\" value=\"1\"></label>\n<label>capacity<input name=\"capacity\" type=\"number\" min=\"1\" max\
=\"4096\" value=\"2\"></label>\n<label>bound<input name=\"bound\" type=\"number\" min=\"1\" max=\"1024\" value=\"2\"><\
/label>\n<label>life (items ever accepted)<input name=\"life\" type=\"number\" min=\"1\" max=\"281474976710656\" value\
=\"100\"></label>\n<label>sends of each sender<input name=\"sends\" type=\"number\" min=\"0\" max=\"1000\" value=\"2\"\
></label>\n<label>words of an item<input name=\"words\" type=\"number\" min=\"1\" max=\"4\" value=\"1\"></label>\n<lab\
el>takes of each receiver<input name=\"takes\" type=\"number\" min=\"0\" max=\"1000\" value=\"4\"></label>\n<label>tab\
le of steps<select name=\"table\" class=\"tables\"></select></label>\n<button>open this queue</button>\n</form>\n<h3>O\
pen a plan: paste its JSON, or choose a file</h3>\n<textarea id=\"import\" class=\"mono\" aria-label=\"a plan in JSON\
\" placeholder='{\"capacity\":2,\"bound\":2,\"life\":10,\"senders\":[[7]],\"receivers\":[1],\"schedule\":[[\"s1\",100]\
,[\"r1\",100]]}'></textarea>\n<div class=\"row\" style=\"margin-top:5px\"><button id=\"open-plan\" type=\"button\">ope\
n this plan</button><input id=\"file\" type=\"file\" accept=\".json,application/json\" aria-label=\"a file with a plan\
\"></div>\n<p id=\"import-hint\" role=\"status\"></p>\n</details>\n</section>\n<section id=\"stage\" tabindex=\"-1\" a\
ria-label=\"The run\">\n<div class=\"card\" id=\"player\" tabindex=\"-1\" role=\"group\" aria-label=\"Player\">\n<div \
class=\"row\">\n<button id=\"back\" title=\"one event back (left arrow)\">&#8592; back</button>\n<button id=\"play\" t\
itle=\"plays event by event (space)\" aria-pressed=\"false\">play</button>\n<button id=\"next\" title=\"one event on (\
right arrow)\">next &#8594;</button>\n<input id=\"slider\" type=\"range\" min=\"0\" value=\"0\" step=\"1\" aria-label=\
\"event\">\n<span id=\"where\"></span>\n<button id=\"more-toggle\" aria-expanded=\"false\" aria-controls=\"more\">more\
</button>\n<div class=\"row\" id=\"more\">\n<button id=\"first\" title=\"to the opening (Home)\">first</button>\n<butt\
on id=\"before\" title=\"to the decision before this event (D)\">&#171; decision</button>\n<button id=\"after\" title=\
\"to the next decision (d)\">decision &#187;</button>\n<button id=\"last\" title=\"to the last event (End)\">last</but\
ton>\n<select id=\"speed\" aria-label=\"speed of play\"><option value=\"1000\">1 a second</option><option value=\"333\
\" selected>3 a second</option>\n<option value=\"100\">10 a second</option><option value=\"33\">30 a second</option></\
select>\n<select id=\"branches\" aria-label=\"which run\"></select>\n<button id=\"export\" title=\"the plan whose run \
is this one, up to this event, and a link to it\">export plan</button>\n</div>\n</div>\n<div id=\"event\" role=\"statu\
s\" aria-live=\"polite\" aria-atomic=\"true\"></div>\n<div id=\"breaks\" role=\"alert\"></div>\n</div>\n<section class\
=\"card\" id=\"lesson\" aria-labelledby=\"lesson-title\">\n<div class=\"top\"><h2 id=\"lesson-title\"></h2><div class=\
\"row\"><button id=\"stop-before\" title=\"the stop before (p)\">&#171; stop</button>\n<button id=\"stop-next\" title=\
\"the next stop (n)\">next stop &#187;</button>\n<button id=\"to-lecture\" title=\"one moment a screen, in large lette\
rs (l)\">lecture</button>\n<button id=\"pair\" aria-pressed=\"false\" title=\"the same steps by the other table\">sid\
e by side</button><button id=\"compare\"></button></div></div>\n<p id=\"lesson-text\"></p>\n<div class=\"moment\" id=\
\"moment\"><div id=\"moments\" role=\"group\" aria-label=\"moments of this run\"></div><div id=\"moment-text\"></div><\
/div>\n<p id=\"parting\" hidden></p>\n<div id=\"task\" hidden><p id=\"task-state\" role=\"status\"></p><p id=\"task-wh\
y\"></p><p id=\"task-hint\" hidden></p><div class=\"row\"><button id=\"hint-button\">hint</button>\n<button id=\"solve\
\">a shortest solution</button><button id=\"next-exercise\" hidden>next exercise &#8594;</button><button id=\"again\">\
start again</button><span class=\"dim\" id=\"task-length\"></span></div></div>\n</section>\n<section id=\"sides\" aria\
-label=\"The chains and the list\">\n<div class=\"side\"><h2 id=\"side-title\"></h2><p id=\"side-event\"></p><div clas\
s=\"chains\" id=\"chains\"></div>\n<section class=\"card of-list\" aria-labelledby=\"list-title\"><h2 id=\"list-title\
\">The list</h2><div id=\"list\"></div></section></div>\n<div class=\"side\" id=\"other\" hidden><h2 id=\"other-title\
\"></h2><p id=\"other-event\"></p><div class=\"chains\" id=\"other-chains\"></div>\n<section class=\"card of-list\" ar\
ia-label=\"The list of the other queue\"><h2>The list</h2><div id=\"other-list\"></div></section></div>\n</section>\n<\
section class=\"card\" id=\"passes\" aria-labelledby=\"lanes-title\">\n<div class=\"top\">\n<h2 id=\"lanes-title\">Th\
e passes: press one to step</h2>\n<form id=\"add\" class=\"row\" hidden>\n<select id=\"caller\" aria-label=\"the pass \
that gets a further call\"></select>\n<input id=\"body\" aria-label=\"the words of the item\" placeholder=\"one to fou\
r words\" autocomplete=\"off\" inputmode=\"numeric\">\n<button id=\"add-send\">add send</button><button id=\"add-close\
\" type=\"button\">add close</button><button id=\"add-take\" type=\"button\">add take</button>\n</form>\n<span class=\
\"dim\" id=\"config\"></span>\n<label id=\"all-label\"><input id=\"all\" type=\"checkbox\"> all passes</label>\n</div>\
\n<p id=\"hint\" role=\"status\" hidden></p>\n<div id=\"turns\"></div>\n<div id=\"lanes\" tabindex=\"0\" role=\"group\
\" aria-label=\"lanes of the passes\"><div id=\"names\"></div><div id=\"cells\"></div></div>\n<div id=\"waits\"></div>\
\n<p class=\"legend\" id=\"legend\"></p>\n</section>\n<section class=\"card\" id=\"law-card\" aria-labelledby=\"law-ti\
tle\" hidden>\n<h2 id=\"law-title\">What is broken</h2>\n<div id=\"law\"></div>\n<div class=\"row\" id=\"adversary\"><\
button id=\"search\" title=\"random schedules of this queue until one breaks a law, and then a shortest one\">break i\
t at random</button>\n<span id=\"search-state\" role=\"status\"></span></div>\n</section>\n<section class=\"card\" id=\
\"code\" tabindex=\"0\" aria-labelledby=\"code-title\">\n<div id=\"code-head\"><h2 id=\"code-title\">The program, and \
the line of this step</h2><div id=\"holds\"></div></div>\n<div id=\"program\"></div>\n</section>\n<div id=\"rest\">\n<\
div class=\"chains\" id=\"more-chains\"></div>\n<section class=\"card\" aria-labelledby=\"history-title\">\n<h2 id=\"h\
istory-title\">The history so far, in the order of the swaps</h2>\n<div id=\"history\" class=\"columns\"></div>\n</sec\
tion>\n<details class=\"card\" id=\"order\"><summary>An order of all calls</summary><div id=\"order-text\"></div></det\
ails>\n<details class=\"card\" id=\"texts\"><summary>The plan up to this event, its link, and its report</summary>\n<d\
iv class=\"two\">\n<div><h3>plan</h3><textarea id=\"plan\" class=\"mono\" readonly aria-label=\"plan\"></textarea>\n<d\
iv class=\"row\" style=\"margin-top:5px\"><a id=\"save\" class=\"pick\" download=\"plan.json\">save plan.json</a><butt\
on id=\"copy\" type=\"button\">copy the link</button></div>\n<input id=\"link\" class=\"mono\" readonly aria-label=\"l\
ink to this run\" style=\"width:100%\"></div>\n<div><h3>report, as <code>ccq play</code> writes it</h3><pre class=\"mo\
no\" id=\"whole\" tabindex=\"0\"></pre></div>\n</div>\n</details>\n</div>\n</section>\n</main>\n<section id=\"lecture\
\" hidden aria-label=\"Lecture\">\n<div class=\"top\"><h2 id=\"lecture-title\"></h2><span id=\"lecture-count\"></span>\
</div>\n<p id=\"lecture-text\" role=\"status\" aria-live=\"polite\"></p>\n<div id=\"lecture-sides\"></div>\n<div id=\"\
lecture-code\" hidden></div>\n<div id=\"lecture-line\"></div>\n<nav aria-label=\"Lecture\"><button id=\"lecture-back\
\" title=\"the screen before (left arrow, Page up)\">&#8592; back</button>\n<select id=\"lecture-lesson\" aria-label=\
\"the lesson\"></select><span class=\"gap\"></span>\n<button id=\"lecture-program\" title=\"the program in large lette\
rs, or the picture (c)\" aria-pressed=\"false\">program</button>\n<button id=\"lecture-full\" title=\"the whole scree\
n (f)\">full screen</button><button id=\"lecture-leave\" title=\"back to the run (Escape)\">leave</button>\n<button id\
=\"lecture-next\" title=\"the next screen (right arrow, space, Page down)\">next &#8594;</button></nav>\n</section>\n<\
section id=\"handout\" aria-label=\"The exercises on paper\"></section>\n<footer>\n<section id=\"keys\"><h2>Keys</h2>\
\n<p><kbd>&#8592;</kbd> <kbd>&#8594;</kbd> one event; <kbd>space</kbd> plays and stops, except in a field for text, an\
d <kbd>Enter</kbd> presses a button; <kbd>d</kbd> <kbd>D</kbd> the next\ndecision, and the one before; <kbd>1</kbd> t\
o <kbd>9</kbd> a step of the first to ninth pass, and with <kbd>Shift</kbd> its steps until its call returns or it wai\
ts; <kbd>n</kbd> <kbd>p</kbd> the next stop,\nand the one before; <kbd>m</kbd> <kbd>M</kbd> the next moment of a stop\
, and the one before; <kbd>l</kbd> the lecture; <kbd>Esc</kbd> hides the explanation of a word. In the player <kbd>Hom\
e</kbd> and\n<kbd>End</kbd> go to the first and the last event, <kbd>Page up</kbd> and <kbd>Page down</kbd> to decisio\
ns. A step that the run doesn't have next begins a branch.</p>\n<p>In a lecture <kbd>&#8594;</kbd>, <kbd>space</kbd>, \
<kbd>Enter</kbd> and <kbd>Page down</kbd> show the next screen, <kbd>&#8592;</kbd>, <kbd>Backspace</kbd> and <kbd>Pag\
e up</kbd> the one before, <kbd>Home</kbd> and\n<kbd>End</kbd> the first and the last of the lesson; <kbd>c</kbd> show\
s the program in place of the picture, <kbd>f</kbd> fills the whole screen, <kbd>b</kbd> or <kbd>.</kbd> blanks it, an\
d <kbd>Esc</kbd> leaves. Presenters' clickers press these keys.</p></section>\n<section id=\"glossary\"><h2>Words</h2>\
<dl id=\"words\"></dl></section>\n<details><summary>What a step of each kind does</summary><dl id=\"kinds\"></dl></det\
ails>\n</footer>\n<div id=\"tip\" role=\"tooltip\" hidden></div>\n<script type=\"application/json\" id=\"site\">{\"cap\
acity\":4,\"bound\":4,\"life\":10,\"senders\":[[7],[8],[9]],\"receivers\":[2],\"schedule\":[[\"s1\",6],[\"s2\",6],[\"s\
3\",6],[\"s1\",32],[\"r1\",6],[\"s1\",26],[\"r1\",17],[\"s2\",2],[\"s3\",2],[\"r1\",23]]}</script>\n<script type=\"app\
lication/json\" id=\"exercises\">\n[\n{\"id\":\"empty\",\"title\":\"Empty beside an item\",\n \"text\":\"Make a take r\
eturn Empty while an accepted item is in the queue. The queue is the right one, so this is no fault: find out why.\",\
\n \"hint\":\"An answer is fixed at its [[decision]], and returned later. Stop r1 in between, and let s1 send.\",\n \"\
why\":\"The take took effect when it read null after the dummy, before the send linked its item: an answer may be old \
when it is returned, and still right at one moment of its call.\",\n \"plan\":{\"capacity\":2,\"bound\":2,\"life\":10,\
\"senders\":[[7]],\"receivers\":[1],\"schedule\":[]},\n \"goal\":{\"returns\":\"Empty\"},\n \"solution\":[[\"r1\",9],[\
\"s1\",20],[\"r1\",5]]},\n{\"id\":\"full\",\"title\":\"Full beside a free node\",\n \"text\":\"The capacity is 1, and \
s1 has sent 5. Make the send of 6 return Full while no item waits. The queue is the right one.\",\n \"hint\":\"Full ta\
kes effect when the scan begins. Stop s2 before it reads its answer, and let r1 take the item.\",\n \"why\":\"The sen\
d took effect when its scan began, and at that moment all nodes were busy: the take came later, and its answer was fix\
ed by then.\",\n \"plan\":{\"capacity\":1,\"bound\":2,\"life\":10,\"senders\":[[5],[6]],\"receivers\":[1],\"schedule\"\
:[[\"s1\",28]]},\n \"goal\":{\"returns\":\"Full\"},\n \"solution\":[[\"s2\",19],[\"r1\",14],[\"s2\",1]]},\n{\"id\":\"p\
assed_over\",\"title\":\"A call is passed over\",\n \"text\":\"At the bound, which is 1 here, this combiner hands ove\
r to the node after the one where it has to stop. Make it hand over past a call that waits.\",\n \"hint\":\"The combin\
er needs a link to follow: let both senders link their requests before s1 stops.\",\n \"why\":\"The next combiner serv\
es only calls behind its own node, so no link leads to the call that was passed over, and it waits for ever.\",\n \"pl\
an\":{\"capacity\":2,\"bound\":1,\"life\":10,\"senders\":[[1],[2]],\"receivers\":[0],\"schedule\":[]},\n \"table\":\"h\
anded_past\",\n \"goal\":{\"breaks\":[\"hand\"]},\n \"solution\":[[\"s1\",25],[\"s2\",6],[\"s1\",2]]},\n{\"id\":\"left\
_behind\",\"title\":\"Lose an item by an early mark\",\n \"text\":\"This combiner follows the next link of a node onl\
y after it has marked the node done. Make its hand-over miss, so that the item of a send is lost.\",\n \"hint\":\"Let \
s1 serve s2 and mark its node done. Then s2 returns and begins its next send before s1 reads the link.\",\n \"why\":\"\
The owner of a node that is marked done may clear its link at once, so the combiner lost its way to the next request: \
the link has to be read before the mark.\",\n \"plan\":{\"capacity\":2,\"bound\":2,\"life\":10,\"senders\":[[1],[2,3]]\
,\"receivers\":[0],\"schedule\":[]},\n \"table\":\"marked_early\",\n \"goal\":{\"breaks\":[\"hand\"]},\n \"solution\":\
[[\"s1\",26],[\"s2\",6],[\"s1\",18],[\"s2\",3],[\"s1\",2]]},\n{\"id\":\"lost\",\"title\":\"Lose an item of a group\",\
\n \"text\":\"s1 has sent 5, for two groups. This queue uses a list node as soon as one group has gone past it. Make t\
he take of r2 return Empty, although 5 waits for group 2.\",\n \"hint\":\"Let group 1 go past node 0, and then let s1 \
use node 0 for its send of 6.\",\n \"why\":\"The node was the dummy of the other group, and the send cleared its link\
: so a node may be used again only when every group has gone past it.\",\n \"plan\":{\"version\":2,\"groups\":2,\"capa\
city\":1,\"bound\":2,\"life\":10,\"senders\":[[[5],[6]]],\"receivers\":[1,1],\"schedule\":[[\"s1\",28]]},\n \"table\":\
\"one_group\",\n \"goal\":{\"breaks\":[\"empty\",\"fifo\"]},\n \"solution\":[[\"r1\",14],[\"s1\",16],[\"r2\",9]]},\n{\
\"id\":\"twice\",\"title\":\"Get an item twice\",\n \"text\":\"s1 has sent 5. A take of this queue frees the node tha\
t is the dummy from then on. Make r1 get one item twice.\",\n \"hint\":\"After the take of 5 node 1 is the dummy and c\
ounts as free. A send that uses node 1 links it to itself.\",\n \"why\":\"The node from which an item was taken is th\
e dummy from then on, and a head names it: so a take frees the dummy before it.\",\n \"plan\":{\"capacity\":1,\"bound\
\":2,\"life\":10,\"senders\":[[5,6]],\"receivers\":[3],\"schedule\":[[\"s1\",28]]},\n \"table\":\"freed_dummy\",\n \"g\
oal\":{\"breaks\":[\"fifo\"]},\n \"solution\":[[\"r1\",14],[\"s1\",21],[\"r1\",46]]}\n]\n</script>\n<script type=\"app\
lication/json\" id=\"lessons\">\n[\n{\"kind\":\"tour\",\"id\":\"lone\",\"title\":\"A lone send\",\n \"text\":\"{pass:s\
1} sends {sent:7}, and no other [[pass]] moves. {combiner:s1} swaps its [[node]] into the [[tail]] of the send [[chain\
]], finds that no pass combines, and serves its own request.\",\n \"plan\":{\"capacity\":2,\"bound\":2,\"life\":10,\"s\
enders\":[[7]],\"receivers\":[1],\"schedule\":[[\"s1\",28]]},\n \"moments\":[\n  [3,\"Exchange\",\"{pass:s1} swaps {to\
:node 1} into the tail and gets {was:node 0}: its call enters the [[history]] as the {place:1st} send.\"],\n  [6,\"Lin\
k\",\"{pass:s1} links {node:node 0} to {to:node 1}, the node in the tail: only now can a [[combiner]] serve the reques\
t.\"],\n  [7,\"ReadState\",\"{pass:s1} reads state {value:0}: no pass combines, so {pass:s1} is the combiner.\"],\n  [\
20,\"LinkLast\",\"{pass:s1} links list {to:node 1}, which has the item {item:7}, to {node:node 0}: this step is the [[\
decision]], {decided:accepted as item 0}.\"],\n  [27,\"HandOver\",\"No further request is linked, so {pass:s1} hands o\
ver to {node:node 1}, the node in the tail.\"],\n  [28,\"ReadAnswer\",\"{pass:s1} reads its answer: its call returns {\
returned:accepted as item 0}.\"]]},\n{\"kind\":\"tour\",\"id\":\"three\",\"title\":\"Three sends that one serves\",\n \
\"text\":\"Three senders link their requests before any is served. {combiner:s1} is the [[combiner]]: it serves all th\
ree in one [[turn]], in the order of their swaps, while the others only read their own states.\",\n \"plan\":{\"capaci\
ty\":4,\"bound\":4,\"life\":10,\"senders\":[[1],[2],[3]],\"receivers\":[0],\"schedule\":[[\"s1\",6],[\"s2\",6],[\"s3\"\
,6],[\"s2\",2],[\"s3\",2],[\"s1\",58],[\"s2\",2],[\"s3\",2]]},\n \"moments\":[\n  [18,\"Link\",\"Three requests are li\
nked now: {linked:node 0 of s1, node 1 of s2 and node 2 of s3}. The tail names {tail:node 3}, which no call has.\"],\
\n  [19,\"ReadState\",\"{pass:s2} reads state {waits:1} and begins to wait: it reads its own node alone, and changes n\
o word.\"],\n  [42,\"ReadNext\",\"{pass:s1} reads the next link of {node:node 1} before it serves {owner:s2}: it name\
s {to:node 2}, so the request of {owner:s2} is whole.\"],\n  [59,\"MarkDone\",\"{pass:s1} has written the answer of {o\
wner:s2} and marks {node:node 1} done: from now on {owner:s2} may return.\"],\n  [79,\"HandOver\",\"{pass:s1} has serv\
ed {served:three} requests, and hands over to {node:node 3}, the node in the tail.\"],\n  [84,\"ReadAnswer\",\"{pass:s\
3} reads its answer: its call returns {returned:accepted as item 2}. {pass:s3} has not touched the list.\"]]},\n{\"kin\
d\":\"tour\",\"id\":\"bound\",\"title\":\"The hand-over at the bound\",\n \"text\":\"The [[bound]] is {bound:2}: a [[c\
ombiner]] serves at most two requests in one [[turn]]. {combiner:s1} serves {turn:s1 and s2}, and hands over to {next:\
s3}.\",\n \"plan\":{\"capacity\":4,\"bound\":2,\"life\":10,\"senders\":[[1],[2],[3]],\"receivers\":[0],\"schedule\":[[\
\"s1\",6],[\"s2\",6],[\"s3\",8],[\"s1\",39],[\"s3\",22],[\"s2\",2]]},\n \"moments\":[\n  [57,\"MarkDone\",\"{pass:s1} \
marks {node:node 1} done: it has served {served:two} requests, as many as the bound.\"],\n  [58,\"HandOver\",\"{pass:s\
1} hands over to {node:node 2} of {owner:s3}, the first call without an answer.\"],\n  [60,\"ReadState\",\"{pass:s3} r\
eads state {value:0}: no pass combines, so {pass:s3} is the combiner. At no moment did two passes combine.\"],\n  [73,\
\"LinkLast\",\"{pass:s3} serves its own request: this step is the decision, {decided:accepted as item 2}.\"]]},\n{\"ki\
nd\":\"tour\",\"id\":\"take\",\"title\":\"A take\",\n \"text\":\"{pass:s1} has sent {sent:7}, and {taker:r1} takes it\
. The receivers have a [[chain]] of their own. The list begins with its [[dummy]], a node with no item to take.\",\n \
\"plan\":{\"capacity\":2,\"bound\":2,\"life\":10,\"senders\":[[7]],\"receivers\":[1],\"schedule\":[[\"s1\",28],[\"r1\"\
,23]]},\n \"moments\":[\n  [35,\"ReadObject\",\"{pass:r1} combines in the take chain and reads the [[head]]: {to:node \
0} is the dummy.\"],\n  [37,\"ReadDummyNext\",\"{pass:r1} reads the next link of the dummy: it names {to:node 1}, so t\
he list has an item.\"],\n  [39,\"ReadItem\",\"{pass:r1} reads the word of the item, {value:7}, in {node:node 1}, whic\
h is still in the list.\"],\n  [40,\"WriteObject\",\"{pass:r1} moves the head to {to:node 1}: this is the dummy from n\
ow on.\"],\n  [42,\"AddPassed\",\"{pass:r1} adds one to the [[passed]] count of {node:node 0}: this step is the [[deci\
sion]], {decided:got 7 as item 0}. This node is free from now on.\"]]},\n{\"kind\":\"tour\",\"id\":\"empty\",\"title\"\
:\"Empty, and a send in between\",\n \"text\":\"{pass:s1} has prepared a list node and stops one step before the link\
. A take that runs now returns Empty, and rightly: the send has not taken effect yet.\",\n \"plan\":{\"capacity\":2,\"\
bound\":2,\"life\":10,\"senders\":[[7]],\"receivers\":[2],\"schedule\":[[\"s1\",19],[\"r1\",14],[\"s1\",9],[\"r1\",23]\
]},\n \"moments\":[\n  [19,\"ReadObject\",\"{pass:s1} stops before the link: {prepared:node 1} has the item {item:7}, \
and no link of the list names it.\"],\n  [28,\"ReadDummyNext\",\"{pass:r1} reads null in the next link of the dummy: t\
his step is the decision, {decided:empty}.\"],\n  [34,\"LinkLast\",\"{pass:s1} links list {to:node 1}, which has the i\
tem {item:7}, to {node:node 0}: the send takes effect now, after the take.\"],\n  [56,\"AddPassed\",\"{pass:r1} takes \
the item {got:7}: it is the second take of {pass:r1}.\"]]},\n{\"kind\":\"tour\",\"id\":\"scan\",\"title\":\"Full, and \
when it takes effect\",\n \"text\":\"The [[capacity]] is {capacity:1}, and the item {sent:5} waits. The send of {full:\
6} scans all list nodes for a free one. During the scan {taker:r1} takes the item, and the send still returns Full: i\
t takes effect when its scan begins.\",\n \"plan\":{\"capacity\":1,\"bound\":2,\"life\":10,\"senders\":[[5],[6]],\"rec\
eivers\":[1],\"schedule\":[[\"s1\",28],[\"s2\",14],[\"r1\",23],[\"s2\",6]]},\n \"moments\":[\n  [41,\"ReadObject\",\"{\
pass:s2} reads the [[cursor]], and its scan begins at {cursor:node 0}: both list nodes are busy at this moment, and th\
e Full of this send takes effect here.\"],\n  [42,\"ReadPassed\",\"{pass:s2} reads that no group has gone past {node:n\
ode 0}, which is the dummy: it is busy.\"],\n  [56,\"AddPassed\",\"{pass:r1} takes the item {got:5}: {node:node 0} is \
free from now on, but the scan has read it already.\"],\n  [66,\"ReadPassed\",\"{pass:s2} reads that no group has gon\
e past {node:node 1}, which is the dummy now: this step is the decision, {decided:full}.\"]],\n \"opens\":\"order\"},\
\n{\"kind\":\"tour\",\"id\":\"again\",\"title\":\"A node that is used again\",\n \"text\":\"The [[capacity]] is {capac\
ity:1}, so the list has two ordinary nodes. {taker:r1} takes the item {sent:5}, which frees a list node. The send of {\
sent:7} uses {again:node 0} again, and no item is lost.\",\n \"plan\":{\"capacity\":1,\"bound\":2,\"life\":10,\"sender\
s\":[[5],[7]],\"receivers\":[2],\"schedule\":[[\"s1\",28],[\"r1\",23],[\"s2\",28],[\"r1\",23]]},\n \"moments\":[\n  [4\
2,\"AddPassed\",\"{pass:r1} takes the item {got:5}: every group has gone past {node:node 0}, and it is free from now o\
n.\"],\n  [65,\"ReadPassed\",\"{pass:s2} begins its scan at the cursor, and finds {node:node 0} free.\"],\n  [67,\"Res\
etListNode\",\"{pass:s2} clears the {word:next link} of {node:node 0}, as it did the passed count: {node:node 0} is no\
t in the list, so no take can read it.\"],\n  [71,\"LinkLast\",\"{pass:s2} links list {to:node 0}, which has the item \
{item:7}, to {node:node 1}: this step is the decision, {decided:accepted as item 1}.\"],\n  [93,\"AddPassed\",\"{pass:\
r1} takes the item {got:7}: {node:node 1} is free from now on.\"]]},\n{\"kind\":\"tour\",\"id\":\"close\",\"title\":\"\
A close\",\n \"text\":\"{pass:s1} sends {sent:5}, closes the queue, and tries to send {sent:6}. The [[closing mark]] i\
s a list node of its own, so a close is never Full. {taker:r1} takes what is left, and then gets Ended.\",\n \"plan\":\
{\"capacity\":2,\"bound\":2,\"life\":10,\"senders\":[[5,\"close\",6]],\"receivers\":[2],\"schedule\":[[\"s1\",65],[\"r\
1\",38]]},\n \"moments\":[\n  [42,\"LinkLast\",\"{pass:s1} links the closing mark to {node:node 1}: this step is the [\
[decision]], {decided:shut after 1 item}.\"],\n  [44,\"WriteObject\",\"{pass:s1} sets the {word:shut} word: the later \
send reads it, and returns Closed.\"],\n  [60,\"ReadObject\",\"{pass:s1} serves the send of {asked:6} and reads that t\
he queue is shut: this step is the decision, {decided:closed}.\"],\n  [79,\"AddPassed\",\"{pass:r1} takes the item {go\
t:5}, which was accepted before the close.\"],\n  [98,\"ReadItem\",\"{pass:r1} reads the tag of the node after the dum\
my: it is {value:0}, so this node is the mark, and this step is the decision, {decided:ended after 1 item}.\"]]},\n{\"\
kind\":\"tour\",\"id\":\"groups\",\"title\":\"Two groups\",\n \"text\":\"Two [[group]]s of receivers read one list: {g\
roups:r1 is group 1, and r2 is group 2}. Each group has its own [[head]] and gets every item. A node is free when bot\
h groups have gone past it.\",\n \"plan\":{\"version\":2,\"groups\":2,\"capacity\":1,\"bound\":2,\"life\":10,\"senders\
\":[[[5],[6],[6]]],\"receivers\":[2,2],\"schedule\":[[\"s1\",28],[\"r1\",23],[\"s1\",20],[\"r2\",23],[\"s1\",28],[\"r1\
\",23],[\"r2\",23]]},\n \"moments\":[\n  [42,\"AddPassed\",\"Group {group:1} takes the item {got:5}: one of two group\
s has gone past {node:node 0}, and it is not free.\"],\n  [66,\"ReadPassed\",\"The send of {asked:6} finds no free nod\
e: this step is the decision, {decided:full}. Group {slow:2} has not taken the item {next:5}, and holds the sender bac\
k.\"],\n  [85,\"AddPassed\",\"Group {group:2} takes the item {got:5} too: every group has gone past {node:node 0}, an\
d it is free from now on.\"],\n  [114,\"LinkLast\",\"The next send of {asked:6} uses {to:node 0}: this step is the dec\
ision, {decided:accepted as item 1}.\"],\n  [159,\"AddPassed\",\"Group {group:2} takes the item {got:6} too: each grou\
p got all items, in one order.\"]]},\n{\"kind\":\"tour\",\"id\":\"order\",\"title\":\"An order of all calls\",\n \"tex\
t\":\"Calls overlap, and yet there is one order of all calls in which each answer is that of a queue that does one cal\
l after another. Each call takes effect between its swap and its [[decision]]. Every run of the algorithm is lineariza\
ble in this sense, and that is proved: the law is RunsAreLinearizable in crates/cc_runs. The card \\\"An order of all \
calls\\\" shows this order for the run on the page.\",\n \"plan\":{\"capacity\":1,\"bound\":2,\"life\":10,\"senders\":\
[[5],[6]],\"receivers\":[2],\"schedule\":[[\"s1\",19],[\"r1\",14],[\"s1\",9],[\"s2\",14],[\"r1\",23],[\"s2\",6]]},\n \
\"moments\":[\n  [28,\"ReadDummyNext\",\"{pass:r1} reads null in the next link of the dummy: the take is Empty while \
a send is under way, and is {order:1st} in the order.\"],\n  [34,\"LinkLast\",\"{pass:s1} links list {to:node 1}, whic\
h has the item {item:5}, to {node:node 0}: the send takes effect now, and is {order:2nd} in the order.\"],\n  [55,\"Re\
adObject\",\"{pass:s2} reads the cursor, and its scan begins at {cursor:node 0}: the Full of this send takes effect he\
re, and is {order:3rd} in the order.\"],\n  [70,\"AddPassed\",\"{pass:r1} takes the item {got:5}: the take is {order:4\
th} in the order.\"],\n  [80,\"ReadPassed\",\"{pass:s2} reads that no group has gone past {node:node 1}, which is the \
dummy now: this step is the decision, {decided:full}. In the order it comes before the take.\"]],\n \"opens\":\"order\
\"},\n{\"kind\":\"example\",\"id\":\"bodies_of_words\",\"title\":\"Items of one to four words\",\n \"text\":\"Three se\
nders send items of one to four words. {combiner:s3} serves the first send of each.\",\n \"plan\":{\"version\":2,\"gro\
ups\":1,\"capacity\":4,\"bound\":4,\"life\":10,\"senders\":[[[1],[2,20]],[[3,30,300]],[[4,40,400,4000]]],\"receivers\"\
:[4],\"schedule\":[[\"s3\",9],[\"s2\",8],[\"s1\",6],[\"s3\",200],[\"s1\",200],[\"r1\",200]]},\n \"moments\":[]},\n{\"k\
ind\":\"example\",\"id\":\"full\",\"title\":\"A full queue\",\n \"text\":\"A send finds no free node, and a node that \
a take freed is used again.\",\n \"plan\":{\"capacity\":1,\"bound\":2,\"life\":10,\"senders\":[[5,6],[7]],\"receivers\
\":[1],\"schedule\":[[\"s1\",500],[\"r1\",500],[\"s2\",500]]},\n \"moments\":[]},\n{\"kind\":\"example\",\"id\":\"clos\
e_and_drain\",\"title\":\"Close and drain\",\n \"text\":\"{pass:s1} closes the queue. A later send returns Closed, an\
d a later close Already. {taker:r1} takes what is left, and then gets Ended.\",\n \"plan\":{\"capacity\":2,\"bound\":2\
,\"life\":10,\"senders\":[[5,\"close\",6,\"close\"]],\"receivers\":[3],\"schedule\":[[\"s1\",500],[\"r1\",500]]},\n \"\
moments\":[]},\n{\"kind\":\"example\",\"id\":\"two_groups\",\"title\":\"Two groups, one slow\",\n \"text\":\"Two group\
s take every item, and the slower group holds the sender back.\",\n \"plan\":{\"version\":2,\"groups\":2,\"capacity\":\
1,\"bound\":2,\"life\":10,\"senders\":[[[5],[6],[6],[6],\"close\"]],\"receivers\":[3,3],\"schedule\":[[\"s1\",48],[\"r\
1\",23],[\"s1\",20],[\"r2\",23],[\"s1\",28],[\"r1\",23],[\"s1\",100],[\"r2\",100],[\"r1\",100]]},\n \"moments\":[]},\n\
{\"kind\":\"example\",\"id\":\"two_sends_combined\",\"title\":\"Two sends, one combiner\",\n \"text\":\"Two sends swap\
, and the pass of the first send serves both.\",\n \"plan\":{\"capacity\":2,\"bound\":2,\"life\":10,\"senders\":[[7],[\
9]],\"receivers\":[0],\"schedule\":[[\"s1\",3],[\"s2\",100],[\"s1\",100]]},\n \"moments\":[]},\n{\"kind\":\"example\",\
\"id\":\"bound_one\",\"title\":\"Bound 1\",\n \"text\":\"The combiner hands over after one request, and the second sen\
d is pending at the end.\",\n \"plan\":{\"capacity\":2,\"bound\":1,\"life\":10,\"senders\":[[7],[9]],\"receivers\":[0]\
,\"schedule\":[[\"s1\",3],[\"s2\",100],[\"s1\",100]]},\n \"moments\":[]},\n{\"kind\":\"example\",\"id\":\"cut_before_t\
he_link\",\"title\":\"Cut before the link\",\n \"text\":\"A send that stops one step before its decision is pending a\
t the end.\",\n \"plan\":{\"capacity\":2,\"bound\":2,\"life\":10,\"senders\":[[7]],\"receivers\":[1],\"schedule\":[[\"\
s1\",19]]},\n \"moments\":[]},\n{\"kind\":\"example\",\"id\":\"one_item\",\"title\":\"One item\",\n \"text\":\"One ite\
m is sent and taken.\",\n \"plan\":{\"capacity\":2,\"bound\":2,\"life\":10,\"senders\":[[7]],\"receivers\":[1],\"sched\
ule\":[[\"s1\",100],[\"r1\",100]]},\n \"moments\":[]},\n{\"kind\":\"broken\",\"id\":\"marked_early\",\"title\":\"Marke\
d done before the link is followed\",\n \"text\":\"This [[combiner]] follows the next link of a node only after it ha\
s marked the node done. In between, the owner of the node returns, begins another send, and clears the link.\",\n \"pl\
an\":{\"capacity\":4,\"bound\":4,\"life\":10,\"senders\":[[1,5],[2,4],[3]],\"receivers\":[3],\"schedule\":[[\"s1\",6],\
[\"s2\",6],[\"s3\",6],[\"s1\",38],[\"s2\",5],[\"s1\",3],[\"s2\",5],[\"s3\",4],[\"s1\",29],[\"r1\",72],[\"s3\",2]]},\n \
\"moments\":[\n  [56,\"MarkDone\",\"{pass:s1} marks {node:node 1} of {owner:s2} done: only its next step reads the lin\
k by which it goes on.\"],\n  [59,\"ResetNext\",\"{pass:s2} has returned and begins its next send: it clears the {word\
:next link} of {node:node 1}, which led to {was:node 2} of {led:s3}.\"],\n  [63,\"HandOver\",\"{pass:s1} found null i\
n that link, and hands over to {node:node 1}, the node in the tail: the call of {first:s3} is the first without an ans\
wer, and is skipped.\"],\n  [70,\"ReadState\",\"{pass:s3} reads state {waits:1} and begins to wait: no link leads to i\
ts node any more.\"],\n  [81,\"ReadNext\",\"{pass:s1} sends again and got {node:node 1} with state {state:0}: it serve\
s its own request, past that of {first:s3}.\"],\n  [164,\"AddPassed\",\"{pass:r1} gets {got:5} as item {number:2}: by \
the history item {number:2} is that of {whose:s3}, whose send still waits.\"]],\n \"table\":\"marked_early\",\"breaks\
\":\"hand\",\n \"lost\":\"Lost: the items {pending:3 and 4}. At the end of this run their sends wait for ever: no pas\
s has a next step that changes a word.\",\n \"right\":{\"title\":\"The link is read before the request is served\",\
\n  \"text\":\"The right [[combiner]] reads the next link of a node before it serves the request. {pass:s2} returns an\
d clears its link as before, and {combiner:s1} already knows the next node.\",\n  \"moments\":[\n  [38,\"ReadNext\",\"\
{pass:s1} reads the next link of {node:node 1} before it serves {owner:s2}: it names {to:node 2}, so the request of {o\
wner:s2} is whole.\"],\n  [55,\"MarkDone\",\"{pass:s1} has written the answer of {owner:s2} and marks {node:node 1} do\
ne: from now on {owner:s2} may return.\"],\n  [56,\"ReadNext\",\"{pass:s1} goes on to {node:node 2} of {owner:s3}, th\
e first call without an answer.\"],\n  [59,\"ResetNext\",\"{pass:s2} has returned and begins its next send: it clears \
the {word:next link} of {node:node 1}, and {combiner:s1} is at {at:node 2} already.\"],\n  [82,\"LinkLast\",\"{pass:s1\
} serves the request of {client:s3}: this step is the decision, {decided:accepted as item 2}.\"],\n  [162,\"AddPassed\
\",\"{pass:r1} gets {got:3} as item {number:2}: no accepted item is lost.\"],\n  [173,\"ReadAnswer\",\"{pass:s3} read\
s its answer: its call returns {returned:accepted as item 2}.\"]]}},\n{\"kind\":\"broken\",\"id\":\"handed_past\",\"ti\
tle\":\"Handed over past a request\",\n \"text\":\"At the [[bound]] this [[combiner]] reads one link too many, and han\
ds over to the node after the one where it has to stop.\",\n \"plan\":{\"capacity\":4,\"bound\":1,\"life\":10,\"sender\
s\":[[1],[2],[3]],\"receivers\":[3],\"schedule\":[[\"s1\",6],[\"s2\",6],[\"s3\",6],[\"s1\",22],[\"s3\",22],[\"s2\",21]\
,[\"s3\",21],[\"r1\",69],[\"s2\",2]]},\n \"moments\":[\n  [37,\"MarkDone\",\"{pass:s1} marks {node:node 0} done: it ha\
s served {served:one} request, as many as the bound. The next request is that of {first:s2}, in {open_node:node 1}.\"]\
,\n  [39,\"HandOver\",\"{pass:s1} hands over to {node:node 2} of {owner:s3}, past the request of {first:s2}.\"],\n  [4\
2,\"ReadNext\",\"{pass:s3} serves its own request, and the first call without an answer is that of {first:s2}.\"],\n  \
[62,\"ReadAnswer\",\"{pass:s3} reads its answer: its call returns {returned:accepted as item 1}. By the history this i\
s the answer of {answered:s2}.\"],\n  [120,\"AddPassed\",\"{pass:r1} gets {got:3} as item {number:1}: by the history i\
tem {number:1} is that of {whose:s2}, whose send still waits.\"]],\n \"table\":\"handed_past\",\"breaks\":\"hand\",\n \
\"lost\":\"Lost: the item {pending:2}. At the end of this run its send waits for ever: no pass has a next step that ch\
anges a word.\",\n \"right\":{\"title\":\"Handed over to the next request\",\n  \"text\":\"The right [[combiner]] hand\
s over to the node where it stops. At the [[bound]] that is the node of the next request.\",\n  \"moments\":[\n  [37,\
\"MarkDone\",\"{pass:s1} marks {node:node 0} done: it has served {served:one} request, as many as the bound. The next \
request is that of {first:s2}, in {open_node:node 1}.\"],\n  [38,\"HandOver\",\"{pass:s1} hands over to {node:node 1} \
of {owner:s2}, the first call without an answer.\"],\n  [40,\"ReadState\",\"{pass:s3} reads state {waits:1} and begin\
s to wait: it reads its own node alone, and changes no word.\"],\n  [62,\"ReadState\",\"{pass:s2} reads state {value:0\
}: no pass combines, so {pass:s2} is the combiner.\"],\n  [75,\"LinkLast\",\"{pass:s2} serves its own request: this st\
ep is the decision, {decided:accepted as item 1}.\"],\n  [139,\"AddPassed\",\"{pass:r1} gets {got:2} as item {number:1\
}: no accepted item is lost.\"]]}},\n{\"kind\":\"broken\",\"id\":\"freed_dummy\",\"title\":\"Freed while the node is t\
he dummy\",\n \"text\":\"This take adds to the [[passed]] count of the node that it took the item from. But this node \
is the [[dummy]] from now on, and a send may use it.\",\n \"plan\":{\"capacity\":1,\"bound\":2,\"life\":10,\"senders\"\
:[[5,6]],\"receivers\":[3],\"schedule\":[[\"s1\",28],[\"r1\",23],[\"s1\",29],[\"r1\",46]]},\n \"moments\":[\n  [42,\"A\
ddPassed\",\"{pass:r1} takes the item {got:5} out of {dummy:node 1}, and adds one to the passed count of {node:node 1}\
, which is the dummy now.\"],\n  [67,\"ResetListNode\",\"The next send finds {node:node 1} free and clears its {word:p\
assed count}, while the head names it.\"],\n  [72,\"LinkLast\",\"{pass:s1} links {to:node 1} to itself.\"],\n  [94,\"A\
ddPassed\",\"{pass:r1} gets {got:6} as item {number:1}: the head names {dummy:node 1}, and so does its next link.\"],\
\n  [117,\"AddPassed\",\"{pass:r1} gets {got:6} as item {number:2}: the same item again.\"]],\n \"table\":\"freed_dumm\
y\",\"breaks\":\"reset\",\n \"lost\":\"Got twice: the item {twice:6}.\",\n \"right\":{\"title\":\"The old dummy is fre\
ed\",\n  \"text\":\"The right take adds to the [[passed]] count of the old [[dummy]]. The new dummy stays busy, so no \
send uses it.\",\n  \"moments\":[\n  [42,\"AddPassed\",\"{pass:r1} takes the item {got:5} out of {dummy:node 1}, and a\
dds one to the passed count of {node:node 0}, the old dummy.\"],\n  [66,\"ResetListNode\",\"The next send finds {node:\
node 0} free and clears its {word:passed count}: {node:node 0} is not in the list, so no take can read it.\"],\n  [71,\
\"LinkLast\",\"{pass:s1} links list {to:node 0}, which has the item {item:6}, to {node:node 1}: this step is the decis\
ion, {decided:accepted as item 1}.\"],\n  [93,\"AddPassed\",\"{pass:r1} gets {got:6} as item {number:1}: no accepted i\
tem is lost.\"],\n  [111,\"ReadDummyNext\",\"{pass:r1} reads null in the next link of the dummy: this step is the deci\
sion, {decided:empty}.\"]]}},\n{\"kind\":\"broken\",\"id\":\"one_group\",\"title\":\"Freed after one group\",\n \"text\
\":\"This send uses a node as soon as one [[group]] has gone past it. Another group may still need the node.\",\n \"pl\
an\":{\"version\":2,\"groups\":2,\"capacity\":2,\"bound\":2,\"life\":10,\"senders\":[[[5],[6],[7]]],\"receivers\":[1,3\
],\"schedule\":[[\"s1\",56],[\"r1\",23],[\"s1\",28],[\"r2\",60]]},\n \"moments\":[\n  [70,\"AddPassed\",\"Group {group\
:1} takes the item {got:5}: one of two groups has gone past {node:node 0}, which is still the dummy of group {behind:2\
}.\"],\n  [94,\"ResetListNode\",\"The next send finds {node:node 0} free and clears its {word:passed count}, while th\
e head of group {behind:2} names it.\"],\n  [95,\"ResetListNode\",\"{pass:s1} clears the {word:next link} of {node:nod\
e 0}: group {behind:2} has lost its way to the items {cut:5 and 6}.\"],\n  [116,\"ReadDummyNext\",\"{pass:r2} reads nu\
ll in the next link of the dummy: this step is the decision, {decided:empty}, while {waiting:3} items wait for group {\
group:2}.\"]],\n \"table\":\"one_group\",\"breaks\":\"reset\",\n \"lost\":\"Lost for group {behind:2}: the items {unta\
ken:5, 6 and 7}.\",\n \"right\":{\"title\":\"Freed after every group\",\n  \"text\":\"The right send uses a node only \
after every [[group]] has gone past it. So the send of {full:7} returns Full, and each group gets its items.\",\n  \"m\
oments\":[\n  [70,\"AddPassed\",\"Group {group:1} takes the item {got:5}: one of two groups has gone past {node:node 0\
}, which is still the dummy of group {behind:2}.\"],\n  [95,\"ReadPassed\",\"The send of {asked:7} finds no free node\
: this step is the decision, {decided:full}. Group {slow:2} has not taken the item {next:5}, and holds the sender back\
.\"],\n  [114,\"AddPassed\",\"Group {group:2} takes the item {got:5} too: every group has gone past {node:node 0}, an\
d it is free from now on.\"],\n  [137,\"AddPassed\",\"Group {group:2} takes the item {got:6}: no accepted item is lost\
.\"]]}},\n{\"kind\":\"broken\",\"id\":\"full_early\",\"title\":\"Full two nodes early\",\n \"text\":\"This scan ends t\
wo nodes early. One node early would change no answer: the last node of a scan is the one that was linked last, and i\
t is busy.\",\n \"plan\":{\"capacity\":3,\"bound\":2,\"life\":10,\"senders\":[[5,6,7,8,9]],\"receivers\":[5],\"schedul\
e\":[[\"s1\",98],[\"r1\",46],[\"s1\",51],[\"r1\",78]]},\n \"moments\":[\n  [98,\"ReadPassed\",\"The scan of the send o\
f {asked:8} reads {node:node 0}, which is busy: {waiting:3} items wait, so the queue is full.\"],\n  [135,\"AddPassed\
\",\"{pass:r1} takes the item {got:6}: the nodes {free:0 and 1} are free now.\"],\n  [145,\"ReadPassed\",\"The scan o\
f the send of {asked:8} goes on and finds {node:node 1} free, of the free nodes {free:0 and 1}.\"],\n  [174,\"ReadPass\
ed\",\"The scan of the send of {asked:9} has read two busy nodes: this step is the decision, {decided:full}, while onl\
y {waiting:2} of {capacity:3} items wait and node {free:0} is free.\"]],\n \"table\":\"full_early\",\"breaks\":\"full\
\",\n \"lost\":\"Refused: the item {full:9}, while only {waiting:2} of {capacity:3} items wait.\",\n \"right\":{\"titl\
e\":\"Full after a whole scan\",\n  \"text\":\"The right scan reads every node once before it returns Full. So the sen\
d of {sent:9} finds {again:node 0}.\",\n  \"moments\":[\n  [98,\"ReadPassed\",\"The scan of the send of {asked:8} read\
s {node:node 0}, which is busy: {waiting:3} items wait, so the queue is full.\"],\n  [135,\"AddPassed\",\"{pass:r1} ta\
kes the item {got:6}: the nodes {free:0 and 1} are free now.\"],\n  [145,\"ReadPassed\",\"The scan of the send of {ask\
ed:8} goes on and finds {node:node 1} free, of the free nodes {free:0 and 1}.\"],\n  [175,\"ReadPassed\",\"The scan o\
f the send of {asked:9} has read two busy nodes, and finds {node:node 0} free.\"],\n  [181,\"LinkLast\",\"{pass:s1} li\
nks list {to:node 0}, which has the item {item:9}, to {node:node 1}: this step is the decision, {decided:accepted as i\
tem 4}.\"],\n  [249,\"AddPassed\",\"{pass:r1} gets {got:9} as item {number:4}: no accepted item is lost.\"]]}}\n]\n</s\
cript>\n<script type=\"text/plain\" id=\"run\">";

/// The text between the run and the report.
pub const MIDDLE: &[u8] = b"\
</script>\n<script id=\"machine\">\n// Runs without pictures: a plan, or what the program wrote, played by the machin\
e of the definitions, and further steps by hand.\nconst Machine = (() => {\n'use strict';\n\n\
const EVENT_LIMIT = 20000;    // that of ccq show\nconst CALL_LIMIT = 65536;     // of each pass, that of a plan\ncons\
t BRANCH_LIMIT = 20;\nconst CLEAN = 'audit clean';  // the verdict on each run, which is proved\n\n\
// ---- Kinds of events: a name, two letters, a word, a group of kinds, and what such a step does.\n\n\
const KINDS = [null,\n  ['ResetState', 'Rs', 'set 1', 'enter', 'stores 1, waiting, into the state of its own node'],\
\n  ['Exchange', 'Ex', 'swap', 'enter', 'swaps its own node into the tail of its chain: here the call enters the histo\
ry'],\n  ['ReadState', 'St', 'state?', 'wait', 'reads the state of its node: 0 to serve, 1 to wait, 2 if the answer i\
s there'],\n  ['HandOver', 'Ho', 'hand', 'hand', 'stores 0, serve, into the state of the node where it stops: the pas\
s of that node serves next'],\n  ['ReadObject', 'Or', 'read', 'serve', 'reads a word of the list'],\n  ['WriteObject'\
, 'Ow', 'write', 'serve', 'writes a word of the list'],\n  ['ResetNext', 'Rn', 'clear', 'enter', 'stores null into th\
e next link of its own node'],\n  ['WriteRequest', 'Wq', 'ask', 'enter', 'writes a word of its request into its node']\
,\n  ['Link', 'Lk', 'link', 'enter', 'links its node to the one that it put into the tail'],\n  ['ReadNext', 'Nx', 'ne\
xt?', 'serve', 'reads the next link of the node that it would serve'],\n  ['ReadRequest', 'Rq', 'asked?', 'serve', 're\
ads a word of the request that it serves'],\n  ['WriteAnswer', 'Wa', 'reply', 'serve', 'writes a word of the answer'],\
\n  ['MarkDone', 'Dn', 'done', 'hand', 'stores 2, done, into the state of the node that it served'],\n  ['ReadAnswer'\
, 'An', 'answer', 'answer', 'reads a word of its answer'],\n  ['ReadPassed', 'Ps', 'free?', 'serve', 'reads the numbe\
r of groups that passed a list node: it is free if all have'],\n  ['ResetListNode', 'Rl', 'reset', 'serve', 'clears a \
word of the free list node'],\n  ['WriteItem', 'Wi', 'item', 'serve', 'writes a word of the item into the list node'],\
\n  ['LinkLast', 'Ll', 'append', 'serve', 'links the list node to the last one: here the send is accepted, or the queu\
e is shut'],\n  ['ReadDummyNext', 'Dx', 'first?', 'serve', 'reads the next link of the dummy: null if the list is empt\
y'],\n  ['ReadItem', 'Ri', 'item?', 'serve', 'reads a word of the item'],\n  ['AddPassed', 'Ap', 'passed', 'serve', 'a\
dds 1 to the groups that passed the old dummy: here the item is got'],\n];\nconst number = {};\nKINDS.forEach((kind, i\
) => { if (kind) number[kind[0]] = i; });\n\n\
// ---- Words of the table. A chain is -1, the senders', or a group from 0.\n\n\
const tail = x => ({ at: 'tail', x });\nconst node = (x, i, field, n) => ({ at: 'node', x, i, field, n });\nconst ite\
m = (i, field, n) => ({ at: 'item', i, field, n });\nconst object = (field, g) => ({ at: 'object', field, g });\ncons\
t keyOf = w => [w.at, w.x, w.i, w.field, w.n, w.g].join(' ');\nconst callText = call => call.take ? 'take' : call.clos\
e ? 'close' : 'send ' + call.send.join(' ');\n\n\
// <steps>\n// The machine, by tools/page_steps.py: the table of steps of crates/cc_runs/specs, what is ahead of a cal\
l, and the\n// definitions that these name. Each of CHANGES makes a broken table, by its name.\nconst minus = (a, b) =\
> a > b ? a - b : 0n;\nconst CHANGES = {\n \"marked_early\": [\n  {\n   \"in\": \"Lines.line\",\n   \"was\": \"line (M\
arkDone job) _ = store MarkDone (Node x job.round.at State) 2 (after_done c.config.bound job)\",\n   \"is\": \"line (M\
arkDone job) _ = store MarkDone (Node x job.round.at State) 2 (FollowNext job)\"\n  },\n  {\n   \"in\": \"Lines.line\"\
,\n   \"was\": \"\",\n   \"is\": \"line (FollowNext was) next = load ReadNext (Node x was.round.at Next) (if next == \
0 then HandOver was.round.at else after_done c.config.bound (record was { next = next - 1 }))\"\n  }\n ],\n \"handed_p\
ast\": [\n  {\n   \"in\": \"Lines.after_done\",\n   \"was\": \"after_done bound job = if job.round.served + 1 == boun\
d then HandOver job.next else ReadNext record { at = job.next; served = job.round.served + 1 }\",\n   \"is\": \"after_\
done bound job = ReadNext record { at = job.next; served = job.round.served + 1 }\"\n  },\n  {\n   \"in\": \"Lines.lin\
e\",\n   \"was\": \"line (ReadNext round) next = load ReadNext (Node x round.at Next) (after_next c.served x round nex\
t)\",\n   \"is\": \"line (ReadNext round) next = load ReadNext (Node x round.at Next) (if round.served == c.config.bou\
nd then (if next == 0 then HandOver round.at else HandOver (next - 1)) else after_next c.served x round next)\"\n  }\
\n ],\n \"freed_dummy\": [\n  {\n   \"in\": \"TakeLines.line\",\n   \"was\": \"line g (WriteHead dummy at parcel) _ = \
store WriteObject (Object (Head g)) (at + 1) (On (WriteTaken dummy parcel))\",\n   \"is\": \"line g (WriteHead dummy a\
t parcel) _ = store WriteObject (Object (Head g)) (at + 1) (On (WriteTaken at parcel))\"\n  }\n ],\n \"one_group\": [\
\n  {\n   \"in\": \"SendLines.by_passed\",\n   \"was\": \"by_passed c parcel at reads passed = if passed == groups c t\
hen On (ResetPassed parcel at) else if reads == c.capacity + 1 then Decides (Send Full) else On (ReadPassed parcel (af\
ter c at) (reads + 1))\",\n   \"is\": \"by_passed c parcel at reads passed = if nat_lt 0 passed then On (ResetPassed p\
arcel at) else if reads == c.capacity + 1 then Decides (Send Full) else On (ReadPassed parcel (after c at) (reads + 1)\
)\"\n  }\n ],\n \"full_early\": [\n  {\n   \"in\": \"SendLines.by_passed\",\n   \"was\": \"by_passed c parcel at read\
s passed = if passed == groups c then On (ResetPassed parcel at) else if reads == c.capacity + 1 then Decides (Send Fu\
ll) else On (ReadPassed parcel (after c at) (reads + 1))\",\n   \"is\": \"by_passed c parcel at reads passed = if pass\
ed == groups c then On (ResetPassed parcel at) else if reads + 1 == c.capacity then Decides (Send Full) else On (ReadP\
assed parcel (after c at) (reads + 1))\"\n  }\n ]\n};\nconst tableOf = variant => {\nconst Body_body_of = (words) => {\
\n  if (words.length > 0 && words.slice(1).length === 0) return { words: { is: 'One', 0: [words[0]] } };\n  if (words.\
length > 0 && words.slice(1).length > 0 && words.slice(1).slice(1).length === 0) return { words: { is: 'Two', 0: [word\
s[0], words.slice(1)[0]] } };\n  if (words.length > 0 && words.slice(1).length > 0 && words.slice(1).slice(1).length \
> 0\n    && words.slice(1).slice(1).slice(1).length === 0) return { words: { is: 'Three', 0: [words[0], words.slice(1)\
[0], words.slice(1).slice(1)[0]] } };\n  return { words: { is: 'Four', 0: words } };\n};\nconst Body_further_of = (b) \
=> minus(BigInt(Body_words_of(b).length), 1n);\nconst Body_in_all = (v0) => {\n  if (v0.is === 'One') return v0[0];\
\n  if (v0.is === 'Two') return v0[0];\n  if (v0.is === 'Three') return v0[0];\n  if (v0.is === 'Four') return v0[0];\
\n};\nconst Body_words_of = (b) => Body_in_all(b.words);\nconst Items_is_pass = (v0, v1) => {\n  if (v0.is === 'Sender\
' && v1.is === 'Sender') return (v0[0] === v1[0]);\n  if (v0.is === 'Receiver' && v1.is === 'Receiver') return (v0[0] \
=== v1[0]);\n  return false;\n};\nconst Record_of_group = (h, g) => h.takes[g] ?? Record_silent();\nconst Record_silen\
t = () => ({ calls: [], answers: [] });\nconst Ahead_ahead = (c, x, k, s) => (Ahead_serving_part(c.config, x, k, BigIn\
t(OnChain_answers_on(x, s.history).length),\n  Ahead_combiner(c, x, s)) + Ahead_shares(Ahead_entering_left, c, x, k, s\
, OnChain_passes_on(c, x)));\nconst Ahead_combiner = (c, x, s) => Ahead_combiner_among(c, x, s, OnChain_passes_on(c, x\
));\nconst Ahead_combiner_among = (c, x, s, v3) => {\n  if (v3 === 0n) return { is: 'Idle' };\n  if (v3 >= 1n) return \
ChainLaws_is_combining(s.stand(OnChain_pass_on(c, x, (v3 - 1n))).phase) ? s.stand(OnChain_pass_on(c, x, (v3 - 1n))).ph\
ase\n    : Ahead_combiner_among(c, x, s, (v3 - 1n));\n};\nconst Ahead_counting_left = (v0) => {\n  if (v0.is === 'Read\
Tag') return 7n;\n  if (v0.is === 'ReadBody') return (3n + minus(3n, v0.index));\n  if (v0.is === 'ReadCount') return \
2n;\n  if (v0.is === 'WriteCount') return 1n;\n};\nconst Ahead_entering_left = (v0) => {\n  if (v0.is === 'WriteTag') \
return 6n;\n  if (v0.is === 'WriteBody') return (2n + minus(3n, v0.index));\n  if (v0.is === 'Link') return 1n;\n  ret\
urn 0n;\n};\nconst Ahead_sending_left = (c, v1) => {\n  if (v1.is === 'ReadTag') return (c.capacity + 21n);\n  if (v1.\
is === 'ReadBody') return ((c.capacity + 17n) + minus(3n, v1.index));\n  if (v1.is === 'ReadShut') return (c.capacity \
+ 16n);\n  if (v1.is === 'ReadTotal') return 1n;\n  if (v1.is === 'ReadCount') return (c.capacity + 15n);\n  if (v1.i\
s === 'ReadLastToClose') return 4n;\n  if (v1.is === 'LinkMark') return 3n;\n  if (v1.is === 'WriteLastMark') return 2\
n;\n  if (v1.is === 'WriteShut') return 1n;\n  if (v1.is === 'ReadCursor') return (c.capacity + 14n);\n  if (v1.is ==\
= 'ReadPassed') return (13n + minus((c.capacity + 1n), v1.reads));\n  if (v1.is === 'ResetPassed') return 12n;\n  if (\
v1.is === 'ResetItemNext') return 11n;\n  if (v1.is === 'WriteItemTag') return 10n;\n  if (v1.is === 'WriteItemBody') \
return (6n + minus(3n, v1.index));\n  if (v1.is === 'ReadLast') return 5n;\n  if (v1.is === 'LinkItem') return 4n;\n  \
if (v1.is === 'WriteLast') return 3n;\n  if (v1.is === 'WriteCount') return 2n;\n  if (v1.is === 'WriteCursor') retur\
n 1n;\n};\nconst Ahead_service = (c, v1) => {\n  if (v1.is === 'Send') return (c.capacity + 24n);\n  if (v1.is === 'Ta\
ke') return 19n;\n};\nconst Ahead_serving_left = (c, x, v2) => {\n  if (v2.is === 'ReadNext') return (v2.round.served \
=== 0n) ? (Ahead_service(c, x) + 2n) : 2n;\n  if (v2.is === 'Counting') return (Ahead_counting_left(v2.service) + 4n);\
\n  if (v2.is === 'Sending') return (Ahead_sending_left(c, v2.service) + 4n);\n  if (v2.is === 'Taking') return (Ahead\
_taking_left(v2.service) + 9n);\n  if (v2.is === 'WriteAnswer') return (Ahead_writing_left(v2.answer) + 2n);\n  if (v2\
.is === 'WriteAnswerTag') return 8n;\n  if (v2.is === 'WriteAnswerBody') return (4n + minus(3n, v2.index));\n  if (v2.\
is === 'MarkDone') return 3n;\n  if (v2.is === 'HandOver') return 1n;\n  return 0n;\n};\nconst Ahead_serving_part = (c\
, x, k, answers,\n  at) => (minus(k, (answers + Ahead_taken_on(at))) * (Ahead_service(c, x) + 3n)) + ((answers < (k + \
Turns_decided(at))) ? Ahead_serving_left(c, x, at) : 0n);\nconst Ahead_share = (left, c, x, k, s, n) => Turns_is_among\
(c, x, k, s, n) ? left(s.stand(OnChain_pass_on(c, x, n)).phase) : 0n;\nconst Ahead_shares = (left, c, x, k, s, v5) => \
{\n  if (v5 === 0n) return 0n;\n  if (v5 >= 1n) return (Ahead_share(left, c, x, k, s, (v5 - 1n)) + Ahead_shares(left, \
c, x, k, s, (v5 - 1n)));\n};\nconst Ahead_taken_on = (v0) => {\n  if (v0.is === 'ReadNext') return (v0.round.served ==\
= 0n) ? 1n : 0n;\n  if (v0.is === 'Counting') return 1n;\n  if (v0.is === 'Sending') return minus(1n, Turns_decided({ \
is: 'Sending', job: v0.job, service: v0.service }));\n  if (v0.is === 'Taking') return 1n;\n  return 0n;\n};\nconst Ah\
ead_taking_left = (v0) => {\n  if (v0.is === 'ReadHead') return 11n;\n  if (v0.is === 'ReadTaken') return 10n;\n  if (\
v0.is === 'ReadDummyNext') return 9n;\n  if (v0.is === 'ReadItemTag') return 8n;\n  if (v0.is === 'ReadItemBody') retu\
rn (4n + minus(3n, v0.index));\n  if (v0.is === 'WriteHead') return 3n;\n  if (v0.is === 'WriteTaken') return 2n;\n  i\
f (v0.is === 'AddPassed') return 1n;\n};\nconst Ahead_writing_left = (v0) => {\n  if (v0.is === 'Take' && v0[0].is ==\
= 'Got') return 7n;\n  return 2n;\n};\nconst ChainLaws_is_combining = (v0) => {\n  if (v0.is === 'ReadNext') return tr\
ue;\n  if (v0.is === 'Counting') return true;\n  if (v0.is === 'Sending') return true;\n  if (v0.is === 'Taking') retu\
rn true;\n  if (v0.is === 'WriteAnswer') return true;\n  if (v0.is === 'WriteAnswerTag') return true;\n  if (v0.is ==\
= 'WriteAnswerBody') return true;\n  if (v0.is === 'MarkDone') return true;\n  if (v0.is === 'HandOver') return true;\
\n  return false;\n};\nconst Codes_behind = (further, index, next, on) => (index < further) ? next : on;\nconst Codes_\
body_in = (v0, words) => {\n  if (v0 === 0n) return Body_body_of([words.first]);\n  if (v0 === 1n) return Body_body_of\
([words.first, words.second]);\n  if (v0 === 2n) return Body_body_of([words.first, words.second, words.third]);\n  if \
(v0 >= 3n) return Body_body_of([words.first, words.second, words.third, words.fourth]);\n};\nconst Codes_body_words = \
(item) => Codes_words_in(item.body);\nconst Codes_code_of = (ret) => (ret / (2n ** 56n));\nconst Codes_coded = (code, \
value) => ((code * (2n ** 56n)) + value);\nconst Codes_count_word = (v0) => {\n  if (v0.is === 'Send' && v0[0].is === \
'Accepted') return v0[0].place;\n  return 0n;\n};\nconst Codes_further_words = (tag) => ((tag / (2n ** 48n)) % 4n);\nc\
onst Codes_item_in = (p) => Codes_item_of(p.place, p.tag, p.body);\nconst Codes_item_of = (place, tag, words) => ({ pl\
ace, sender: Codes_tag_sender(tag), number: Codes_tag_number(tag),\n  body: Codes_body_in(Codes_further_words(tag), wo\
rds) });\nconst Codes_list_reads = (ret) => (Codes_code_of(ret) === 1n) ? { is: 'Send', 0: { is: 'Accepted', place: Co\
des_value_of(ret) } }\n  : ((Codes_code_of(ret) === 2n) ? { is: 'Send', 0: { is: 'Full' } }\n  : ((Codes_code_of(ret) \
=== 3n) ? { is: 'Send', 0: { is: 'Closed' } }\n  : ((Codes_code_of(ret) === 4n) ? { is: 'Send', 0: { is: 'Spent' } }\
\n  : ((Codes_code_of(ret) === 5n) ? { is: 'Close', 0: { is: 'Shut', total: Codes_value_of(ret) } }\n  : { is: 'Close'\
, 0: { is: 'Already', total: Codes_value_of(ret) } }))));\nconst Codes_list_word = (v0) => {\n  if (v0.is === 'Send' &\
& v0[0].is === 'Accepted') return Codes_coded(1n, v0[0].place);\n  if (v0.is === 'Send' && v0[0].is === 'Full') retur\
n Codes_coded(2n, 0n);\n  if (v0.is === 'Send' && v0[0].is === 'Closed') return Codes_coded(3n, 0n);\n  if (v0.is === \
'Send' && v0[0].is === 'Spent') return Codes_coded(4n, 0n);\n  if (v0.is === 'Close' && v0[0].is === 'Shut') return Co\
des_coded(5n, v0[0].total);\n  if (v0.is === 'Close' && v0[0].is === 'Already') return Codes_coded(6n, v0[0].total);\
\n  if (v0.is === 'Take' && v0[0].is === 'Got') return Codes_coded(1n, v0[0][0].place);\n  if (v0.is === 'Take' && v0[\
0].is === 'Empty') return Codes_coded(2n, 0n);\n  if (v0.is === 'Take' && v0[0].is === 'Ended') return Codes_coded(3n\
, v0[0].total);\n};\nconst Codes_no_words = () => ({ first: 0n, second: 0n, third: 0n, fourth: 0n });\nconst Codes_pac\
k = (sender, number) => ((sender * (2n ** 32n)) + number);\nconst Codes_packed = (sender, number, body) => ((Body_furt\
her_of(body) * (2n ** 48n)) + Codes_pack((sender % (2n ** 16n)), number));\nconst Codes_parcel = (place, tag, body) =\
> ({ place, tag, body });\nconst Codes_request_in = (e) => Codes_request_of(e.pass, e.call, e.number);\nconst Codes_re\
quest_of = (v0, v1, number) => {\n  if (v0.is === 'Sender' && v1.is === 'Send') return { tag: Codes_packed(v0[0], numb\
er, v1[0]), body: Codes_words_in(v1[0]) };\n  return { tag: 0n, body: Codes_no_words() };\n};\nconst Codes_ret_of = (v\
0, told) => {\n  if (v0.is === 'Counter') return Codes_count_word(told);\n  if (v0.is === 'List') return Codes_list_wo\
rd(told);\n};\nconst Codes_sender_reads = (v0, ret) => {\n  if (v0.is === 'Counter') return { is: 'Send', 0: { is: 'Ac\
cepted', place: ret } };\n  if (v0.is === 'List') return Codes_list_reads(ret);\n};\nconst Codes_slots = (words) => (\
{ first: (words[0n] ?? 0n), second: (words[1n] ?? 0n), third: (words[2n] ?? 0n), fourth: (words[3n] ?? 0n) });\nconst \
Codes_tag_number = (tag) => (tag % (2n ** 32n));\nconst Codes_tag_of = (item) => Codes_packed(item.sender, item.number\
, item.body);\nconst Codes_tag_sender = (tag) => ((tag / (2n ** 32n)) % (2n ** 16n));\nconst Codes_value_of = (ret) =\
> (ret % (2n ** 56n));\nconst Codes_with_asked = (request, index, value) => ({ ...request, body: Codes_with_word(reque\
st.body, index, value) });\nconst Codes_with_read = (p, index, value) => ({ ...p, body: Codes_with_word(p.body, index\
, value) });\nconst Codes_with_word = (body, v1, value) => {\n  if (v1 === 0n) return { ...body, first: value };\n  i\
f (v1 === 1n) return { ...body, second: value };\n  if (v1 === 2n) return { ...body, third: value };\n  if (v1 === 3n\
) return { ...body, fourth: value };\n  if (v1 >= 4n) return body;\n};\nconst Codes_word = (body, v1) => {\n  if (v1 =\
== 0n) return body.first;\n  if (v1 === 1n) return body.second;\n  if (v1 === 2n) return body.third;\n  if (v1 === 3n\
) return body.fourth;\n  if (v1 >= 4n) return 0n;\n};\nconst Codes_words_in = (body) => Codes_slots(Body_words_of(body\
));\nconst CountLines_decides = (service, found) => ServiceLine_answer_of(CountLines_line(0n, service, found).next);\n\
const CountLines_goes = (job, service, found) => ServiceLine_phase_of(CountLines_in_service, job, CountLines_line(0n, \
service, found).next);\nconst CountLines_in_service = (job, service) => ({ is: 'Counting', job, service });\nconst Cou\
ntLines_kind_of = (service) => CountLines_line(0n, service, 0n).kind;\nconst CountLines_line = (served, v1, v2) => {\
\n  if (v1.is === 'ReadTag') return ServiceLine_load({ is: 'ReadRequest' }, { is: 'Node', 0: { is: 'Send' }, 1: served\
, 2: { is: 'Tag' } },\n    { is: 'On', 0: { is: 'ReadBody', tag: v2, index: 0n } });\n  if (v1.is === 'ReadBody') retu\
rn ServiceLine_load({ is: 'ReadRequest' }, { is: 'Node', 0: { is: 'Send' }, 1: served, 2: { is: 'Body', 0: v1.index } \
},\n    { is: 'On', 0: Codes_behind(Codes_further_words(v1.tag), v1.index, { is: 'ReadBody', tag: v1.tag, index: (v1.i\
ndex + 1n) }, { is: 'ReadCount' }) });\n  if (v1.is === 'ReadCount') return ServiceLine_load({ is: 'ReadObject' }, { i\
s: 'Object', 0: { is: 'Count' } },\n    { is: 'On', 0: { is: 'WriteCount', count: v2 } });\n  if (v1.is === 'WriteCoun\
t') return ServiceLine_store({ is: 'WriteObject' }, { is: 'Object', 0: { is: 'Count' } }, (v1.count + 1n),\n    { is: \
'Decides', 0: { is: 'Send', 0: { is: 'Accepted', place: v1.count } } });\n};\nconst CountLines_operation = (served, se\
rvice) => CountLines_line(served, service, 0n).does;\nconst Lines_after_answer = (job, v1) => {\n  if (v1.is === 'Take\
' && v1[0].is === 'Got') return { is: 'WriteAnswerTag', job, item: v1[0][0] };\n  return { is: 'MarkDone', job };\n};\
\nconst Lines_after_done = (bound, job) =>\n  variant === 'handed_past' ? { is: 'ReadNext', round: { at: job.next, ser\
ved: (job.round.served + 1n) } }\n  : ((job.round.served + 1n) === bound) ? { is: 'HandOver', at: job.next } : { is: '\
ReadNext', round: { at: job.next, served: (job.round.served + 1n) } };\nconst Lines_after_exchange = (v0, own, call) =\
> {\n  if (v0.is === 'Send') return { is: 'WriteTag', put: own, request: Codes_request_in(call) };\n  if (v0.is === 'T\
ake') return { is: 'Link', put: own };\n};\nconst Lines_after_next = (served, x, round, v3) => {\n  if (v3 === 0n) ret\
urn { is: 'HandOver', at: round.at };\n  if (v3 >= 1n) return Lines_serves(served, x, { round, next: (v3 - 1n) });\n};\
\nconst Lines_after_ret = (served, v1, ret) => {\n  if (v1.is === 'Send') return { is: 'Finished', answer: Codes_sende\
r_reads(served, ret) };\n  if (v1.is === 'Take') return (Codes_code_of(ret) === 1n) ? { is: 'ReadAnswerTag', place: Co\
des_value_of(ret) }\n    : ((Codes_code_of(ret) === 2n) ? { is: 'Finished', answer: { is: 'Take', 0: { is: 'Empty' } \
} }\n    : { is: 'Finished', answer: { is: 'Take', 0: { is: 'Ended', total: Codes_value_of(ret) } } });\n};\nconst Lin\
es_after_state = (own, v1) => {\n  if (v1 === 0n) return { is: 'ReadNext', round: { at: own, served: 0n } };\n  if (v\
1 === 1n) return { is: 'ReadState' };\n  if (v1 >= 2n) return { is: 'ReadAnswer' };\n};\nconst Lines_group_of = (v0) =\
> {\n  if (v0.is === 'Send') return 0n;\n  if (v0.is === 'Take') return v0[0];\n};\nconst Lines_line = (c, x, own, v0\
, v1) => {\n  if (v0.is === 'Idle') return Lines_none(c, x, own, { is: 'Idle' });\n  if (v0.is === 'ResetNext') retur\
n Lines_store(c, x, own, { is: 'ResetNext' }, { is: 'Node', 0: x, 1: own, 2: { is: 'Next' } }, 0n,\n    { is: 'ResetSt\
ate', call: v0.call });\n  if (v0.is === 'ResetState') return Lines_store(c, x, own, { is: 'ResetState' }, { is: 'Node\
', 0: x, 1: own, 2: { is: 'State' } }, 1n,\n    { is: 'Exchange', call: v0.call });\n  if (v0.is === 'Exchange') retur\
n Lines_swap(c, x, own, { is: 'Exchange' }, { is: 'Tail', 0: x }, (own + 1n), v0.call, minus(v1, 1n),\n    Lines_after\
_exchange(x, own, v0.call));\n  if (v0.is === 'WriteTag') return Lines_store(c, x, own, { is: 'WriteRequest' }, { is: \
'Node', 0: x, 1: own, 2: { is: 'Tag' } }, v0.request.tag,\n    { is: 'WriteBody', put: v0.put, request: v0.request, in\
dex: 0n });\n  if (v0.is === 'WriteBody') return Lines_store(c, x, own, { is: 'WriteRequest' }, { is: 'Node', 0: x, 1\
: own, 2: { is: 'Body', 0: v0.index } },\n    Codes_word(v0.request.body, v0.index), Codes_behind(Codes_further_words(\
v0.request.tag), v0.index,\n    { is: 'WriteBody', put: v0.put, request: v0.request, index: (v0.index + 1n) }, { is: '\
Link', put: v0.put }));\n  if (v0.is === 'Link') return Lines_store(c, x, own, { is: 'Link' }, { is: 'Node', 0: x, 1: \
own, 2: { is: 'Next' } }, (v0.put + 1n), { is: 'ReadState' });\n  if (v0.is === 'ReadState') return Lines_load(c, x, o\
wn, { is: 'ReadState' }, { is: 'Node', 0: x, 1: own, 2: { is: 'State' } }, Lines_after_state(own, v1));\n  if (varian\
t === 'handed_past' && v0.is === 'ReadNext') return Lines_load(c, x, own, { is: 'ReadNext' },\n    { is: 'Node', 0: x\
, 1: v0.round.at, 2: { is: 'Next' } },\n    ((v0.round.served === c.config.bound) ? ((v1 === 0n) ? { is: 'HandOver', a\
t: v0.round.at } : { is: 'HandOver', at: minus(v1, 1n) })\n    : Lines_after_next(c.served, x, v0.round, v1)));\n  if \
(v0.is === 'ReadNext') return Lines_load(c, x, own, { is: 'ReadNext' }, { is: 'Node', 0: x, 1: v0.round.at, 2: { is: '\
Next' } },\n    Lines_after_next(c.served, x, v0.round, v1));\n  if (v0.is === 'Counting') return { ...Lines_step(c, x\
, own, CountLines_kind_of(v0.service), CountLines_operation(v0.job.round.at, v0.service),\n    CountLines_goes(v0.job\
, v0.service, v1)), decides: CountLines_decides(v0.service, v1) };\n  if (v0.is === 'Sending') return { ...Lines_step(\
c, x, own, SendLines_kind_of(v0.service), SendLines_operation(c.config, v0.job.round.at, v0.service),\n    SendLines_g\
oes(c.config, v0.job, v0.service, v1)), decides: SendLines_decides(c.config, v0.service, v1) };\n  if (v0.is === 'Taki\
ng') return { ...Lines_step(c, x, own, TakeLines_kind_of(v0.service), TakeLines_operation(Lines_group_of(x), v0.servic\
e),\n    TakeLines_goes(v0.job, v0.service, v1)), decides: TakeLines_decides(v0.service, v1) };\n  if (v0.is === 'Writ\
eAnswer') return Lines_store(c, x, own, { is: 'WriteAnswer' }, { is: 'Node', 0: x, 1: v0.job.round.at, 2: { is: 'Ret' \
} },\n    Codes_ret_of(c.served, v0.answer), Lines_after_answer(v0.job, v0.answer));\n  if (v0.is === 'WriteAnswerTag'\
) return Lines_store(c, x, own, { is: 'WriteAnswer' }, { is: 'Node', 0: x, 1: v0.job.round.at, 2: { is: 'Tag' } },\
\n    Codes_tag_of(v0.item), { is: 'WriteAnswerBody', job: v0.job, item: v0.item, index: 0n });\n  if (v0.is === 'Writ\
eAnswerBody') return Lines_store(c, x, own, { is: 'WriteAnswer' },\n    { is: 'Node', 0: x, 1: v0.job.round.at, 2: { i\
s: 'Body', 0: v0.index } }, Codes_word(Codes_body_words(v0.item), v0.index),\n    Codes_behind(Codes_further_words(Cod\
es_tag_of(v0.item)), v0.index, { is: 'WriteAnswerBody', job: v0.job, item: v0.item, index: (v0.index + 1n) },\n    { i\
s: 'MarkDone', job: v0.job }));\n  if (variant === 'marked_early' && v0.is === 'MarkDone') return Lines_store(c, x, ow\
n, { is: 'MarkDone' },\n    { is: 'Node', 0: x, 1: v0.job.round.at, 2: { is: 'State' } }, 2n, { is: 'FollowNext', was\
: v0.job });\n  if (variant === 'marked_early' && v0.is === 'FollowNext') return Lines_load(c, x, own, { is: 'ReadNext\
' },\n    { is: 'Node', 0: x, 1: v0.was.round.at, 2: { is: 'Next' } },\n    ((v1 === 0n) ? { is: 'HandOver', at: v0.wa\
s.round.at } : Lines_after_done(c.config.bound, { ...v0.was, next: minus(v1, 1n) })));\n  if (v0.is === 'MarkDone') re\
turn Lines_store(c, x, own, { is: 'MarkDone' }, { is: 'Node', 0: x, 1: v0.job.round.at, 2: { is: 'State' } }, 2n,\
\n    Lines_after_done(c.config.bound, v0.job));\n  if (v0.is === 'HandOver') return Lines_store(c, x, own, { is: 'Han\
dOver' }, { is: 'Node', 0: x, 1: v0.at, 2: { is: 'State' } }, 0n, { is: 'ReadAnswer' });\n  if (v0.is === 'ReadAnswer'\
) return Lines_load(c, x, own, { is: 'ReadAnswer' }, { is: 'Node', 0: x, 1: own, 2: { is: 'Ret' } },\n    Lines_after_\
ret(c.served, x, v1));\n  if (v0.is === 'ReadAnswerTag') return Lines_load(c, x, own, { is: 'ReadAnswer' }, { is: 'Nod\
e', 0: x, 1: own, 2: { is: 'Tag' } },\n    { is: 'ReadAnswerBody', parcel: Codes_parcel(v0.place, v1, Codes_no_words()\
), index: 0n });\n  if (v0.is === 'ReadAnswerBody') return Lines_load(c, x, own, { is: 'ReadAnswer' }, { is: 'Node', 0\
: x, 1: own, 2: { is: 'Body', 0: v0.index } },\n    Codes_behind(Codes_further_words(v0.parcel.tag), v0.index,\n    { \
is: 'ReadAnswerBody', parcel: Codes_with_read(v0.parcel, v0.index, v1), index: (v0.index + 1n) },\n    { is: 'Finished\
', answer: { is: 'Take', 0: { is: 'Got', 0: Codes_item_in(Codes_with_read(v0.parcel, v0.index, v1)) } } }));\n  if (v0\
.is === 'Finished') return Lines_none(c, x, own, { is: 'Finished', answer: v0.answer });\n};\nconst Lines_load = (c, x\
, own, what, word, to) => Lines_step(c, x, own, what, { is: 'Load', 0: word }, to);\nconst Lines_none = (c, x, own, at\
) => ({ event: { is: 'Idle' }, does: { is: 'Load', 0: { is: 'Tail', 0: x } }, goes: at, node: own, enters: { is: 'None\
' },\n  decides: { is: 'None' } });\nconst Lines_serves = (v0, x, job) => {\n  if (v0.is === 'Counter') return { is: '\
Counting', job, service: { is: 'ReadTag' } };\n  if (v0.is === 'List' && x.is === 'Send') return { is: 'Sending', job\
, service: { is: 'ReadTag' } };\n  if (v0.is === 'List' && x.is === 'Take') return { is: 'Taking', job, service: { is\
: 'ReadHead' } };\n};\nconst Lines_step = (c, x, own, what, does,\n  to) => ({ event: { is: 'Did', 0: what }, does, go\
es: to, node: own, enters: { is: 'None' }, decides: { is: 'None' } });\nconst Lines_store = (c, x, own, what, word, va\
lue, to) => Lines_step(c, x, own, what, { is: 'Store', 0: word, 1: value }, to);\nconst Lines_swap = (c, x, own, what\
, word, value, call, node,\n  to) => ({ ...Lines_step(c, x, own, what, { is: 'Swap', 0: word, 1: value }, to), node, e\
nters: { is: 'Some', 0: call } });\nconst OnChain_answers_on = (x, h) => State_side(x, h).answers;\nconst OnChain_call\
s_on = (x, h) => State_side(x, h).calls;\nconst OnChain_pass_on = (c, v1, p) => {\n  if (v1.is === 'Send') return p;\
\n  if (v1.is === 'Take') return (c.config.senders + ((v1[0] * c.config.receivers) + p));\n};\nconst OnChain_passes_o\
n = (c, v1) => {\n  if (v1.is === 'Send') return c.config.senders;\n  if (v1.is === 'Take') return c.config.receivers;\
\n};\nconst SendLines_after = (c, at) => ((at + 1n) % (c.capacity + 1n));\nconst SendLines_any_config = () => ({ sende\
rs: 0n, receivers: 0n, capacity: 0n, bound: 0n, life: 0n, per_sender: 0n, groups: 0n });\nconst SendLines_by_count = (\
c, request, count) => (request.tag === 0n) ? { is: 'On', 0: { is: 'ReadLastToClose', total: count } }\n  : ((count ==\
= c.life) ? { is: 'Decides', 0: { is: 'Send', 0: { is: 'Spent' } } }\n  : { is: 'On', 0: { is: 'ReadCursor', parcel: \
{ place: count, tag: request.tag, body: request.body } } });\nconst SendLines_by_passed = (c, parcel, at, reads, passe\
d) =>\n  variant === 'one_group' ? (0n < passed) ? { is: 'On', 0: { is: 'ResetPassed', parcel, node: at } }\n    : ((r\
eads === (c.capacity + 1n)) ? { is: 'Decides', 0: { is: 'Send', 0: { is: 'Full' } } }\n    : { is: 'On', 0: { is: 'Rea\
dPassed', parcel, node: SendLines_after(c, at), reads: (reads + 1n) } })\n  : variant === 'full_early' ? (passed === W\
ords_groups(c)) ? { is: 'On', 0: { is: 'ResetPassed', parcel, node: at } }\n    : (((reads + 1n) === c.capacity) ? { i\
s: 'Decides', 0: { is: 'Send', 0: { is: 'Full' } } }\n    : { is: 'On', 0: { is: 'ReadPassed', parcel, node: SendLines\
_after(c, at), reads: (reads + 1n) } })\n  : (passed === Words_groups(c)) ? { is: 'On', 0: { is: 'ResetPassed', parcel\
, node: at } }\n    : ((reads === (c.capacity + 1n)) ? { is: 'Decides', 0: { is: 'Send', 0: { is: 'Full' } } }\n    : \
{ is: 'On', 0: { is: 'ReadPassed', parcel, node: SendLines_after(c, at), reads: (reads + 1n) } });\nconst SendLines_by\
_shut = (request, v1) => {\n  if (v1 === 0n) return { is: 'On', 0: { is: 'ReadCount', request } };\n  if (v1 >= 1n) re\
turn (request.tag === 0n) ? { is: 'On', 0: { is: 'ReadTotal' } } : { is: 'Decides', 0: { is: 'Send', 0: { is: 'Closed\
' } } };\n};\nconst SendLines_decides = (c, service, found) => ServiceLine_answer_of(SendLines_line(c, 0n, service, fo\
und).next);\nconst SendLines_goes = (c, job, service, found) => ServiceLine_phase_of(SendLines_in_service, job, SendLi\
nes_line(c, 0n, service, found).next);\nconst SendLines_in_service = (job, service) => ({ is: 'Sending', job, service \
});\nconst SendLines_kind_of = (service) => SendLines_line(SendLines_any_config(), 0n, service, 0n).kind;\nconst SendL\
ines_line = (c, served, v2, v3) => {\n  if (v2.is === 'ReadTag') return ServiceLine_load({ is: 'ReadRequest' }, { is: \
'Node', 0: { is: 'Send' }, 1: served, 2: { is: 'Tag' } },\n    { is: 'On', 0: { is: 'ReadBody', request: { tag: v3, bo\
dy: Codes_no_words() }, index: 0n } });\n  if (v2.is === 'ReadBody') return ServiceLine_load({ is: 'ReadRequest' }, { \
is: 'Node', 0: { is: 'Send' }, 1: served, 2: { is: 'Body', 0: v2.index } },\n    { is: 'On', 0: Codes_behind(Codes_fur\
ther_words(v2.request.tag), v2.index,\n    { is: 'ReadBody', request: Codes_with_asked(v2.request, v2.index, v3), inde\
x: (v2.index + 1n) },\n    { is: 'ReadShut', request: Codes_with_asked(v2.request, v2.index, v3) }) });\n  if (v2.is =\
== 'ReadShut') return ServiceLine_load({ is: 'ReadObject' }, { is: 'Object', 0: { is: 'Shut' } }, SendLines_by_shut(v2\
.request, v3));\n  if (v2.is === 'ReadTotal') return ServiceLine_load({ is: 'ReadObject' }, { is: 'Object', 0: { is: '\
Count' } },\n    { is: 'Decides', 0: { is: 'Close', 0: { is: 'Already', total: v3 } } });\n  if (v2.is === 'ReadCount'\
) return ServiceLine_load({ is: 'ReadObject' }, { is: 'Object', 0: { is: 'Count' } }, SendLines_by_count(c, v2.request\
, v3));\n  if (v2.is === 'ReadLastToClose') return ServiceLine_load({ is: 'ReadObject' }, { is: 'Object', 0: { is: 'La\
st' } },\n    { is: 'On', 0: { is: 'LinkMark', total: v2.total, last: minus(v3, 1n) } });\n  if (v2.is === 'LinkMark'\
) return ServiceLine_store({ is: 'LinkLast' }, { is: 'Item', 0: v2.last, 1: { is: 'Next' } }, (SendLines_mark(c) + 1n)\
,\n    { is: 'DecidesAndOn', 0: { is: 'Close', 0: { is: 'Shut', total: v2.total } }, 1: { is: 'WriteLastMark', total: \
v2.total } });\n  if (v2.is === 'WriteLastMark') return ServiceLine_store({ is: 'WriteObject' }, { is: 'Object', 0: { \
is: 'Last' } }, (SendLines_mark(c) + 1n),\n    { is: 'On', 0: { is: 'WriteShut', total: v2.total } });\n  if (v2.is ==\
= 'WriteShut') return ServiceLine_store({ is: 'WriteObject' }, { is: 'Object', 0: { is: 'Shut' } }, 1n,\n    { is: 'Te\
lls', 0: { is: 'Close', 0: { is: 'Shut', total: v2.total } } });\n  if (v2.is === 'ReadCursor') return ServiceLine_loa\
d({ is: 'ReadObject' }, { is: 'Object', 0: { is: 'Cursor' } },\n    { is: 'On', 0: { is: 'ReadPassed', parcel: v2.parc\
el, node: v3, reads: 1n } });\n  if (v2.is === 'ReadPassed') return ServiceLine_load({ is: 'ReadPassed' }, { is: 'Item\
', 0: v2.node, 1: { is: 'Passed' } },\n    SendLines_by_passed(c, v2.parcel, v2.node, v2.reads, v3));\n  if (v2.is ==\
= 'ResetPassed') return ServiceLine_store({ is: 'ResetListNode' }, { is: 'Item', 0: v2.node, 1: { is: 'Passed' } }, 0n\
,\n    { is: 'On', 0: { is: 'ResetItemNext', parcel: v2.parcel, node: v2.node } });\n  if (v2.is === 'ResetItemNext') \
return ServiceLine_store({ is: 'ResetListNode' }, { is: 'Item', 0: v2.node, 1: { is: 'Next' } }, 0n,\n    { is: 'On', \
0: { is: 'WriteItemTag', parcel: v2.parcel, node: v2.node } });\n  if (v2.is === 'WriteItemTag') return ServiceLine_st\
ore({ is: 'WriteItem' }, { is: 'Item', 0: v2.node, 1: { is: 'Tag' } }, v2.parcel.tag,\n    { is: 'On', 0: { is: 'Write\
ItemBody', parcel: v2.parcel, node: v2.node, index: 0n } });\n  if (v2.is === 'WriteItemBody') return ServiceLine_stor\
e({ is: 'WriteItem' }, { is: 'Item', 0: v2.node, 1: { is: 'Body', 0: v2.index } },\n    Codes_word(v2.parcel.body, v2.\
index), { is: 'On',\n    0: Codes_behind(Codes_further_words(v2.parcel.tag), v2.index, { is: 'WriteItemBody', parcel: \
v2.parcel, node: v2.node, index: (v2.index + 1n) },\n    { is: 'ReadLast', place: v2.parcel.place, node: v2.node }) })\
;\n  if (v2.is === 'ReadLast') return ServiceLine_load({ is: 'ReadObject' }, { is: 'Object', 0: { is: 'Last' } },\
\n    { is: 'On', 0: { is: 'LinkItem', place: v2.place, node: v2.node, last: minus(v3, 1n) } });\n  if (v2.is === 'Lin\
kItem') return ServiceLine_store({ is: 'LinkLast' }, { is: 'Item', 0: v2.last, 1: { is: 'Next' } }, (v2.node + 1n),\
\n    { is: 'DecidesAndOn', 0: { is: 'Send', 0: { is: 'Accepted', place: v2.place } }, 1: { is: 'WriteLast', place: v2\
.place, node: v2.node } });\n  if (v2.is === 'WriteLast') return ServiceLine_store({ is: 'WriteObject' }, { is: 'Objec\
t', 0: { is: 'Last' } }, (v2.node + 1n),\n    { is: 'On', 0: { is: 'WriteCount', place: v2.place, node: v2.node } });\
\n  if (v2.is === 'WriteCount') return ServiceLine_store({ is: 'WriteObject' }, { is: 'Object', 0: { is: 'Count' } }, \
(v2.place + 1n),\n    { is: 'On', 0: { is: 'WriteCursor', place: v2.place, node: v2.node } });\n  if (v2.is === 'Write\
Cursor') return ServiceLine_store({ is: 'WriteObject' }, { is: 'Object', 0: { is: 'Cursor' } }, SendLines_after(c, v2.\
node),\n    { is: 'Tells', 0: { is: 'Send', 0: { is: 'Accepted', place: v2.place } } });\n};\nconst SendLines_mark = (\
c) => (c.capacity + 1n);\nconst SendLines_operation = (c, served, service) => SendLines_line(c, served, service, 0n).d\
oes;\nconst ServiceLine_add = (kind, word, value, next) => ({ kind, does: { is: 'Add', 0: word, 1: value }, next });\n\
const ServiceLine_answer_of = (v0) => {\n  if (v0.is === 'On') return { is: 'None' };\n  if (v0.is === 'Decides') retu\
rn { is: 'Some', 0: v0[0] };\n  if (v0.is === 'DecidesAndOn') return { is: 'Some', 0: v0[0] };\n  if (v0.is === 'Tells\
') return { is: 'None' };\n};\nconst ServiceLine_load = (kind, word, next) => ({ kind, does: { is: 'Load', 0: word }, \
next });\nconst ServiceLine_phase_of = (in_service, job, v2) => {\n  if (v2.is === 'On') return in_service(job, v2[0])\
;\n  if (v2.is === 'Decides') return { is: 'WriteAnswer', job, answer: v2[0] };\n  if (v2.is === 'DecidesAndOn') retur\
n in_service(job, v2[1]);\n  if (v2.is === 'Tells') return { is: 'WriteAnswer', job, answer: v2[0] };\n};\nconst Servi\
ceLine_store = (kind, word, value, next) => ({ kind, does: { is: 'Store', 0: word, 1: value }, next });\nconst State_p\
ass_at = (c, p) => (p < c.senders) ? { is: 'Sender', 0: (p + 1n) } : { is: 'Receiver', 0: (minus(p, c.senders) + 1n) }\
;\nconst State_side = (v0, h) => {\n  if (v0.is === 'Send') return h.sends;\n  if (v0.is === 'Take') return Record_of_\
group(h, v0[0]);\n};\nconst TakeLines_by_next = (dummy, taken, v2) => {\n  if (v2 === 0n) return { is: 'Decides', 0: \
{ is: 'Take', 0: { is: 'Empty' } } };\n  if (v2 >= 1n) return { is: 'On', 0: { is: 'ReadItemTag', dummy, taken, node: \
(v2 - 1n) } };\n};\nconst TakeLines_by_tag = (dummy, taken, at, v3) => {\n  if (v3 === 0n) return { is: 'Decides', 0: \
{ is: 'Take', 0: { is: 'Ended', total: taken } } };\n  if (v3 >= 1n) return { is: 'On', 0: { is: 'ReadItemBody', dummy\
, node: at, parcel: Codes_parcel(taken, ((v3 - 1n) + 1n), Codes_no_words()), index: 0n } };\n};\nconst TakeLines_decid\
es = (service, found) => ServiceLine_answer_of(TakeLines_line(0n, service, found).next);\nconst TakeLines_goes = (job\
, service, found) => ServiceLine_phase_of(TakeLines_in_service, job, TakeLines_line(0n, service, found).next);\nconst \
TakeLines_in_service = (job, service) => ({ is: 'Taking', job, service });\nconst TakeLines_kind_of = (service) => Tak\
eLines_line(0n, service, 0n).kind;\nconst TakeLines_line = (g, v1, v2) => {\n  if (v1.is === 'ReadHead') return Servic\
eLine_load({ is: 'ReadObject' }, { is: 'Object', 0: { is: 'Head', 0: g } },\n    { is: 'On', 0: { is: 'ReadTaken', dum\
my: minus(v2, 1n) } });\n  if (v1.is === 'ReadTaken') return ServiceLine_load({ is: 'ReadObject' }, { is: 'Object', 0\
: { is: 'Taken', 0: g } },\n    { is: 'On', 0: { is: 'ReadDummyNext', dummy: v1.dummy, taken: v2 } });\n  if (v1.is ==\
= 'ReadDummyNext') return ServiceLine_load({ is: 'ReadDummyNext' }, { is: 'Item', 0: v1.dummy, 1: { is: 'Next' } },\
\n    TakeLines_by_next(v1.dummy, v1.taken, v2));\n  if (v1.is === 'ReadItemTag') return ServiceLine_load({ is: 'ReadI\
tem' }, { is: 'Item', 0: v1.node, 1: { is: 'Tag' } },\n    TakeLines_by_tag(v1.dummy, v1.taken, v1.node, v2));\n  if (\
v1.is === 'ReadItemBody') return ServiceLine_load({ is: 'ReadItem' }, { is: 'Item', 0: v1.node, 1: { is: 'Body', 0: v1\
.index } },\n    { is: 'On', 0: Codes_behind(Codes_further_words(v1.parcel.tag), v1.index,\n    { is: 'ReadItemBody', \
dummy: v1.dummy, node: v1.node, parcel: Codes_with_read(v1.parcel, v1.index, v2), index: (v1.index + 1n) },\n    { is\
: 'WriteHead', dummy: v1.dummy, node: v1.node, parcel: Codes_with_read(v1.parcel, v1.index, v2) }) });\n  if (variant \
=== 'freed_dummy' && v1.is === 'WriteHead') return ServiceLine_store({ is: 'WriteObject' }, { is: 'Object', 0: { is: '\
Head', 0: g } },\n    (v1.node + 1n), { is: 'On', 0: { is: 'WriteTaken', dummy: v1.node, parcel: v1.parcel } });\n  i\
f (v1.is === 'WriteHead') return ServiceLine_store({ is: 'WriteObject' }, { is: 'Object', 0: { is: 'Head', 0: g } }, (\
v1.node + 1n),\n    { is: 'On', 0: { is: 'WriteTaken', dummy: v1.dummy, parcel: v1.parcel } });\n  if (v1.is === 'Writ\
eTaken') return ServiceLine_store({ is: 'WriteObject' }, { is: 'Object', 0: { is: 'Taken', 0: g } }, (v1.parcel.place \
+ 1n),\n    { is: 'On', 0: { is: 'AddPassed', dummy: v1.dummy, parcel: v1.parcel } });\n  if (v1.is === 'AddPassed') r\
eturn ServiceLine_add({ is: 'AddPassed' }, { is: 'Item', 0: v1.dummy, 1: { is: 'Passed' } }, 1n,\n    { is: 'Decides'\
, 0: { is: 'Take', 0: { is: 'Got', 0: Codes_item_in(v1.parcel) } } });\n};\nconst TakeLines_operation = (g, service) =\
> TakeLines_line(g, service, 0n).does;\nconst Turns_IsAmong = (c, x, k, s, n) => Turns_is_among(c, x, k, s, n);\ncons\
t Turns_IsTurn = (c, x, k, s, n) => Turns_IsTurnAt(c, x, k, s, n, s.stand(OnChain_pass_on(c, x, n)).phase);\nconst Tur\
ns_IsTurnAt = (c, x, k, s, n, at) => {\n  if (at.is === 'WriteTag') return Turns_IsAmong(c, x, k, s, n);\n  if (at.is \
=== 'WriteBody') return Turns_IsAmong(c, x, k, s, n);\n  if (at.is === 'Link') return Turns_IsAmong(c, x, k, s, n);\
\n  if (at.is === 'ReadState') return ((s.mem({ is: 'Node', 0: x, 1: s.stand(OnChain_pass_on(c, x, n)).node, 2: { is: \
'State' } }) === 0n)\n    && (BigInt(OnChain_answers_on(x, s.history).length) < k));\n  return (ChainLaws_is_combining\
(at) && (BigInt(OnChain_answers_on(x, s.history).length) < (k + Turns_decided(at))));\n};\nconst Turns_decided = (v0) \
=> {\n  if (v0.is === 'Sending' && v0.service.is === 'WriteLastMark') return 1n;\n  if (v0.is === 'Sending' && v0.serv\
ice.is === 'WriteShut') return 1n;\n  if (v0.is === 'Sending' && v0.service.is === 'WriteLast') return 1n;\n  if (v0.i\
s === 'Sending' && v0.service.is === 'WriteCount') return 1n;\n  if (v0.is === 'Sending' && v0.service.is === 'WriteCu\
rsor') return 1n;\n  if (v0.is === 'WriteAnswer') return 1n;\n  if (v0.is === 'WriteAnswerTag') return 1n;\n  if (v0.i\
s === 'WriteAnswerBody') return 1n;\n  if (v0.is === 'MarkDone') return 1n;\n  return 0n;\n};\nconst Turns_has_later \
= (who, k, calls) => calls.slice(Number(k)).some((e) => Items_is_pass(who, e.pass));\nconst Turns_is_among = (c, x, k\
, s, n) => (Turns_is_in(s.stand(OnChain_pass_on(c, x, n)).phase)\n  && (!Turns_has_later(State_pass_at(c.config, OnCha\
in_pass_on(c, x, n)), k, OnChain_calls_on(x, s.history))));\nconst Turns_is_in = (v0) => {\n  if (v0.is === 'Idle') re\
turn false;\n  if (v0.is === 'ResetNext') return false;\n  if (v0.is === 'ResetState') return false;\n  if (v0.is === \
'Exchange') return false;\n  if (v0.is === 'Finished') return false;\n  return true;\n};\nconst Words_groups = (c) => \
c.groups;\nreturn { Lines_line, Codes_list_reads, Codes_further_words, Codes_tag_sender, Codes_tag_number, Codes_code_\
of, Codes_value_of, Body_body_of, Body_words_of, Ahead_ahead, Turns_IsTurn };\n};\n// </steps>\n\n\
const TABLES = new Map();\nfunction table(variant) {\n  if (!TABLES.has(variant)) TABLES.set(variant, tableOf(variant)\
);\n  return TABLES.get(variant);\n}\nconst { Codes_list_reads, Codes_further_words, Codes_tag_sender, Codes_tag_numbe\
r, Codes_code_of, Codes_value_of, Body_body_of, Body_words_of, Ahead_ahead, Turns_IsTurn } = table('');\n// The place\
s of a pass that combines, from its read of state 0 to its hand-over; the last but one is of a broken table.\nconst CO\
MBINES = new Set(['ReadNext', 'Sending', 'Taking', 'WriteAnswer', 'WriteAnswerTag', 'WriteAnswerBody', 'MarkDone', 'Fo\
llowNext', 'HandOver']);\n// The places of a call that hasn't swapped yet.\nconst OUTSIDE = new Set(['Idle', 'ResetNex\
t', 'ResetState', 'Exchange']);\n\n\
const chainAt = x => x < 0 ? { is: 'Send' } : { is: 'Take', 0: BigInt(x) };\nconst chainNumber = chain => chain.is ==\
= 'Send' ? -1 : Number(chain[0]);\nconst DOES = { Load: 'reads', Store: 'writes', Swap: 'swaps', Add: 'adds' };\nfunct\
ion wordAt(w) {\n  const field = f => [f.is.toLowerCase(), f[0] === undefined ? undefined : Number(f[0])];\n  if (w.i\
s === 'Tail') return tail(chainNumber(w[0]));\n  if (w.is === 'Node') return node(chainNumber(w[0]), Number(w[1]), ...\
field(w[2]));\n  if (w.is === 'Item') return item(Number(w[0]), ...field(w[1]));\n  return object(...field(w[0]));\n}\
\nfunction answerText(answer) {\n  if (!answer) return 'pending';\n  const a = answer[0];\n  const name = a.is.toLower\
Case();\n  if (a.is === 'Got') return name + ' ' + a[0].place + ' s' + a[0].sender + ' ' + a[0].number + ' ' + Body_wo\
rds_of(a[0].body).join(' ');\n  const n = a.place === undefined ? a.total : a.place;\n  return n === undefined ? name \
: name + ' ' + n;\n}\n\n\
// ---- Plans.\n\n\
// \" s 7 8 c\": a send of a body of two words, and a close\nfunction callsOf(line) {\n  const calls = [];\n  for (con\
st word of line.trim().split(' ')) {\n    if (word === 's') calls.push({ send: [] });\n    else if (word === 'c') call\
s.push({ close: true });\n    else if (word !== '') calls[calls.length - 1].send.push(BigInt(word));\n  }\n  return ca\
lls;\n}\n\n\
// What the program wrote: the configuration and the calls, with the row and the kind of each event.\nfunction planOfR\
un(text) {\n  const lines = text.split('\\n');\n  const [version, capacity, bound, life, groups, senders] = lines[0].t\
rim().split(' ').map(Number);\n  const numbers = lines[2 + senders].trim().split(' ').filter(word => word !== '').map(\
Number);\n  const written = [];\n  for (let i = 0; i + 1 < numbers.length; i += 2) written.push({ row: numbers[i], kin\
d: numbers[i + 1] });\n  return { version, capacity, bound, life, groups, calls: lines.slice(1, 1 + senders).map(calls\
Of),\n    takes: lines[1 + senders].trim().split(' ').map(Number), written, schedule: [] };\n}\n\n\
const LARGEST = 2n ** 64n;\nconst LIMITS = { capacity: [1, 4096], bound: [1, 1024], life: [1, 2 ** 48], groups: [1, 8\
] };\n\n\
// A plan in JSON, as docs/FORMATS.md has it. Throws a line that says what is wrong.\nfunction planOfText(text) {\n  t\
ry { JSON.parse(text); } catch (fault) { throw new Error('This is not JSON: ' + fault.message); }\n  // a number keep\
s all its digits: as a text that begins with #, and a text begins with a quote\n  const tree = JSON.parse(text.replace\
(/\"(?:[^\"\\\\]|\\\\.)*\"|-?\\d[\\d.eE+-]*/g, token => token[0] === '\"' ? '\"\\'' + token.slice(1) : '\"#' + token \
+ '\"'));\n  const isObject = tree !== null && typeof tree === 'object' && !Array.isArray(tree);\n  if (!isObject) thr\
ow new Error('A plan is an object of JSON, which begins with {.');\n  const value = key => tree[\"'\" + key];\n  cons\
t whole = (of, what, least, most) => {\n    if (typeof of !== 'string' || !/^#\\d+$/.test(of) || BigInt(of.slice(1)) \
< BigInt(least) || BigInt(of.slice(1)) > BigInt(most)) {\n      throw new Error(what + ' is a whole number from ' + le\
ast + ' to ' + most + '.');\n    }\n    return BigInt(of.slice(1));\n  };\n  const list = (of, what) => { if (!Array.i\
sArray(of)) throw new Error(what + ' is a list.'); return of; };\n  const second = value('version') === '#2';\n  cons\
t keys = ['capacity', 'bound', 'life', 'senders', 'receivers', 'schedule', ...(second ? ['groups'] : [])];\n  for (con\
st key of keys) if (value(key) === undefined) throw new Error('The plan has no key \"' + key + '\".');\n  for (const k\
ey of Object.keys(tree)) if (![...keys, 'version'].includes(key.slice(1))) throw new Error('A plan has no key \"' + ke\
y.slice(1) + '\".');\n  const version = value('version') === undefined ? 1 : Number(whole(value('version'), '\"version\
\"', 1, 2));\n  const number = key => Number(whole(value(key), '\"' + key + '\"', ...LIMITS[key]));\n  const plan = { \
version, capacity: number('capacity'), bound: number('bound'), life: number('life'), groups: second ? number('groups'\
) : 1 };\n  const sends = list(value('senders'), '\"senders\"');\n  if (sends.length < 1 || sends.length > 64) throw n\
ew Error('A plan has 1 to 64 senders.');\n  plan.calls = sends.map((mine, k) => list(mine, 'Sender ' + (k + 1)).map(ca\
ll => {\n    if (call === \"'close\") return { close: true };\n    if (typeof call === 'string' && call[0] === \"'\") \
throw new Error('A call of sender ' + (k + 1) + ' is \"' + call.slice(1) + '\", and it may be an item or \"close\".');\
\n    const words = second ? list(call, 'Each send of sender ' + (k + 1)) : [call];\n    if (words.length < 1 || words\
.length > 4) throw new Error('A body has one to four words.');\n    return { send: words.map(word => whole(word, 'A wo\
rd of sender ' + (k + 1), 0, LARGEST - 1n)) };\n  }));\n  const takes = list(value('receivers'), '\"receivers\"');\n  \
plan.takes = takes.map(often => Number(whole(often, 'How often a receiver takes', 0, CALL_LIMIT)));\n  if (takes.lengt\
h < plan.groups || takes.length > 64 * plan.groups || takes.length % plan.groups) throw new Error('Each group has the \
same number of receivers, 1 to 64.');\n  if (plan.calls.some(mine => mine.length > CALL_LIMIT)) throw new Error('A sen\
der has at most ' + CALL_LIMIT + ' calls.');\n  plan.schedule = list(value('schedule'), '\"schedule\"').map((entry, k\
) => {\n    if (!Array.isArray(entry) || entry.length !== 2 || !/^'[sr][1-9]\\d{0,9}$/.test(entry[0])) throw new Error\
('Entry ' + k + ' of the schedule is a pass and a number, as [\"s1\",100].');\n    const at = Number(entry[0].slice(2)\
), steps = Number(whole(entry[1], 'The number of entry ' + k + ' of the schedule', 1, 100000));\n    if (at > (entry[0\
][1] === 's' ? plan.calls : plan.takes).length) throw new Error('Entry ' + k + ' of the schedule names ' + entry[0].sl\
ice(1) + ', and the plan has no such pass.');\n    return { row: entry[0][1] === 's' ? at - 1 : plan.calls.length + a\
t - 1, steps };\n  });\n  return plan;\n}\n\n\
// ---- Laws: what is proved of every run of the table, and what a run of a broken table breaks.\n\n\
const LAWS = {\n  one: ['At most one pass of a chain combines.', 'laws_of_chains'],\n  first: ['A combiner serves the \
first call that has no answer.', 'laws_of_chains'],\n  hand: ['A hand-over reaches the first call that has no answer.'\
, 'proofs/Combining, which carries laws_of_chains'],\n  reset: ['A list node is used again only after every group has \
gone past it.', 'nodes_are_reset_after_their_take'],\n  fifo: ['First in, first out: take k of a group gets the item t\
hat was accepted as k.', 'histories_are_fifo'],\n  full: ['Full means that as many items wait as the capacity, by wha\
t the call can know.', 'histories_are_legal'],\n  empty: ['Empty means that the group took every item that the call ca\
n know of.', 'histories_are_legal'],\n  ended: ['Ended means that the queue is shut and the group took every item.', '\
histories_are_legal'],\n  places: ['The accepted items are numbered 0, 1, 2 and so on.', 'histories_are_legal'],\n  an\
swer: ['What a call reads is its own answer in the history.', 'answers_are_told'],\n};\n\n\
// Opens the queue of a plan and plays its events to the last one; by a broken table, if `variant` names it. `report` \
is what\n// the program wrote of the run.\n//\n// Who serves whom is in the words: a combiner serves the request in th\
e node at which it is.\nfunction open(plan, variant = '', report = null) {\n  const { capacity, bound, life, groups } \
= plan;\n  const { Lines_line } = table(variant);\n  const calls = plan.calls.map(mine => mine.slice());\n  const take\
s = plan.takes.slice();\n  const senders = calls.length, receivers = takes.length / groups;\n  let version = plan.vers\
ion;\n  const rows = senders + groups * receivers;\n  const setting = { served: { is: 'List' },\n    config: { senders\
: BigInt(senders), receivers: BigInt(receivers), capacity: BigInt(capacity), bound: BigInt(bound), life: BigInt(life),\
\n    groups: BigInt(groups) } };\n\n\
\x20 const passName = row => row < senders ? 's' + (row + 1) : 'r' + (row - senders + 1);\n  const chainOf = row => ro\
w < senders ? -1 : Math.floor((row - senders) / receivers);\n\n\
\x20 // The state: words, the place of each pass, and the history.\n  const mem = new Map();\n  const read = w => { co\
nst v = mem.get(keyOf(w)); return v === undefined ? 0n : v; };\n  const write = (w, v) => mem.set(keyOf(w), v);\n  con\
st stands = [];\n  const history = [];         // the senders' side, and then one for each group\n  const side = x => \
history[x + 1];\n  const turns = [];           // of each chain: the newest turn that is over, with the requests that \
its combiner served\n  const lastTurn = x => turns[x + 1];\n  const accepted = [];        // the calls whose items ar\
e accepted, by their places\n  const got = [];             // how many items each group got\n  let shut = false;\n  fo\
r (let x = -1; x < groups; x++) {\n    write(tail(x), 1n);\n    history.push({ calls: [], answers: [], marked: 0 });\
\n    turns.push(null);\n    if (x >= 0) { write(object('head', x), 1n); got.push(0); }\n  }\n  write(object('last'), \
1n);\n  write(object('cursor'), 1n);\n  for (let i = 1; i <= capacity; i++) write(item(i, 'passed'), BigInt(groups));\
\n  for (let row = 0; row < rows; row++) {\n    const own = row < senders ? row + 1 : (row - senders) % receivers + 1;\
\n    // `turn` has the requests that a pass has served, while it combines\n    stands.push({ made: 0, sends: 0, node\
: own, call: null, place: { is: 'Idle' }, turn: null });\n  }\n  const rowsOf = x => x < 0 ? [...Array(senders).keys()\
] : [...Array(receivers).keys()].map(k => senders + x * receivers + k);\n\n\
\x20 // The pass that has a node in a call which has swapped, or -1.\n  const holderOf = (x, i) => rowsOf(x).find(row \
=> stands[row].node === i && !OUTSIDE.has(stands[row].place.is)) ?? -1;\n\n\
\x20 // The request in a node: the call that the words of a send name by their sender and number; a close or a take ha\
s no such words,\n  // and is that of the pass which has the node.\n  function requestAt(x, i) {\n    const row = hold\
erOf(x, i), mine = row < 0 ? null : stands[row].call, tag = x < 0 ? read(node(x, i, 'tag')) : 0n;\n    if (tag === 0n\
) return mine && !mine.send ? mine : null;\n    const sender = Number(Codes_tag_sender(tag)) - 1, number = Codes_tag_n\
umber(tag);\n    if (mine && mine.row === sender && mine.number === number) return mine;\n    return side(x).calls.fin\
d(call => call.send && call.row === sender && call.number === number) || null;\n  }\n\n\
\x20 function nextCall(row, made) {\n    if (row < senders) return calls[row][made] || null;\n    return made < takes[\
row - senders] ? { take: true } : null;\n  }\n\n\
\x20 // The next event of a pass: what it changes, in a form that can be undone. None of an idle pass without a call.\
\n  function nextEvent(row) {\n    const x = chainOf(row);\n    const before = stands[row];\n    let stand = before;\
\n    if (stand.place.is === 'Idle') {\n      const call = nextCall(row, stand.made);\n      if (!call) return null;\
\n      const sends = stand.sends + (call.send ? 1 : 0);\n      const made = Object.assign({ row, number: BigInt(sends\
), known: 0n }, call, x < 0\n        ? { pass: { is: 'Sender', 0: BigInt(row + 1) }, call: call.send ? { is: 'Send', 0\
: Body_body_of(call.send) } : { is: 'Close' } }\n        : { pass: { is: 'Receiver', 0: BigInt(row - senders + 1) }, c\
all: { is: 'Take' } });\n      stand = { made: stand.made + 1, sends, node: stand.node, call: made, place: { is: 'Rese\
tNext', call: made }, turn: null };\n    }\n    const stepAt = found => Lines_line(setting, chainAt(x), BigInt(stand.n\
ode), stand.place, found);\n    const does = stepAt(0n).does;\n    const w = wordAt(does[0]);\n    const found = read(\
w);\n    const step = stepAt(found);\n    const kind = step.event[0].is;\n    const value = does.is === 'Load' ? foun\
d : does.is === 'Add' ? found + does[1] : does[1];\n    const at = stand.place;\n    const ends = step.goes.is === 'Fi\
nished';\n    // a call that enters the history keeps its place in it, and what it can know by then\n    const enters \
= step.enters[0] && Object.assign({}, stand.call, { entered: side(x).calls.length, knows: { accepted: accepted.length\
, least: Math.min(...got), shut } });\n    const served = at.job ? { node: Number(at.job.round.at), call: requestAt(x\
, Number(at.job.round.at)) } : null;\n    const turn = kind === 'ReadState' && found === 0n ? [] : kind === 'MarkDone\
' ? stand.turn.concat(served.call) : kind === 'HandOver' ? null : stand.turn;\n    const after = { made: stand.made, s\
ends: stand.sends, node: Number(step.node), call: ends ? null : enters || stand.call, place: ends ? { is: 'Idle' } : s\
tep.goes, turn };\n    return { row, x, serves: served && served.call, served, kind, w, does: DOES[does.is], found, va\
lue, before, after, call: stand.call, begins: stand !== before, place: at,\n      waits: kind === 'ReadState' && foun\
d === 1n, enters, decides: step.decides[0], marks: kind === 'MarkDone',\n      answer: ends ? step.goes.answer : null\
, over: kind === 'HandOver' ? { row, served: stand.turn } : null, over_before: lastTurn(x) };\n  }\n\n\
\x20 // The state, as the definitions of the laws of progress read it.\n  const state = { mem: w => read(wordAt(w)), s\
tand: p => ({ phase: stands[Number(p)].place, node: BigInt(stands[Number(p)].node) }),\n    history: { get sends() { r\
eturn history[0]; }, get takes() { return history.slice(1); } } };\n\n\
\x20 // Of a pass that waits: the passes whose turn it is, and how many steps in turn are ahead of its answer, at most\
. Nothing of a\n  // pass that doesn't wait, and of a broken table, for which no law says so.\n  function waitOf(row) \
{\n    const { place, node: own, call } = stands[row], x = chainOf(row);\n    if (variant || place.is !== 'ReadState' \
|| read(node(x, own, 'state')) !== 1n) return null;\n    const of = [setting, chainAt(x), BigInt(call.entered + 1), st\
ate];\n    return { ahead: Number(Ahead_ahead(...of)), turns: rowsOf(x).filter((_, n) => Turns_IsTurn(...of, BigInt(n)\
)) };\n  }\n\n\
\x20 // The node of the call that is the first one without an answer, or of the tail.\n  function firstNode(x) {\n    \
const call = side(x).calls[side(x).marked];\n    return call ? (stands[call.row].call === call ? stands[call.row].nod\
e : -1) : Number(read(tail(x))) - 1;\n  }\n\n\
\x20 // Whether a list node can be reached from the head of a group.\n  function isInList(i) {\n    for (let g = 0; g \
< groups; g++) {\n      for (let at = Number(read(object('head', g))) - 1, k = 0; at >= 0 && k <= capacity + 1; at = N\
umber(read(item(at, 'next'))) - 1, k++) if (at === i) return true;\n    }\n    return false;\n  }\n\n\
\x20 // The laws that an event breaks, before it is done.\n  function brokenBy(e) {\n    const found = [];\n    const \
s = side(e.x);\n    if (e.kind === 'ReadState' && e.found === 0n && rowsOf(e.x).some(row => COMBINES.has(stands[row].p\
lace.is))) found.push('one');\n    if (e.kind === 'ReadNext' && ['Sending', 'Taking'].includes(e.after.place.is) && fi\
rstNode(e.x) !== e.w.i) found.push('first');\n    if (e.kind === 'HandOver' && firstNode(e.x) !== e.w.i) found.push('h\
and');\n    if (e.kind === 'ResetListNode' && e.w.field === 'passed' && isInList(e.w.i)) found.push('reset');\n    if \
(e.decides) {\n      const a = e.decides[0], call = s.calls[s.answers.length];\n      const knows = call ? call.knows \
: { accepted: 0, least: 0, shut: false };\n      if (a.is === 'Accepted' && Number(a.place) !== accepted.length) found\
.push('places');\n      if (a.is === 'Full' && accepted.length - knows.least < capacity) found.push('full');\n      i\
f (a.is === 'Empty' && (got[e.x] < knows.accepted || knows.shut)) found.push('empty');\n      if (a.is === 'Ended' && \
(!shut || got[e.x] !== accepted.length)) found.push('ended');\n      if (a.is === 'Got') {\n        const sent = accep\
ted[got[e.x]], item = a[0];\n        if (!sent || Number(item.place) !== got[e.x] || Number(item.sender) !== sent.row \
+ 1 || item.number !== sent.number || Body_words_of(item.body).join() !== sent.send.join()) found.push('fifo');\
\n      }\n    }\n    if (e.answer) {\n      const mine = s.answers[e.call.entered];\n      if (!mine || answerText(mi\
ne) !== answerText(e.answer)) found.push('answer');\n    }\n    return found;\n  }\n\n\
\x20 function redo(e) {\n    if (e.value !== e.found) write(e.w, e.value);\n    stands[e.row] = e.after;\n    const s \
= side(e.x);\n    if (e.enters) s.calls.push(e.enters);\n    if (e.decides) {\n      const a = e.decides[0];\n      i\
f (a.is === 'Accepted') accepted.push(s.calls[s.answers.length]);\n      if (a.is === 'Got') got[e.x]++;\n      if (a.\
is === 'Shut') shut = true;\n      s.answers.push(e.decides);\n    }\n    if (e.marks) s.marked++;\n    if (e.over) tu\
rns[e.x + 1] = e.over;\n  }\n\n\
\x20 function undo(e) {\n    if (e.value !== e.found) write(e.w, e.found);\n    stands[e.row] = e.before;\n    const \
s = side(e.x);\n    if (e.enters) s.calls.pop();\n    if (e.decides) {\n      const a = e.decides[0];\n      if (a.is \
=== 'Accepted') accepted.pop();\n      if (a.is === 'Got') got[e.x]--;\n      if (a.is === 'Shut') shut = false;\
\n      s.answers.pop();\n    }\n    if (e.marks) s.marked--;\n    turns[e.x + 1] = e.over_before;\n  }\n\n\
\x20 // The runs: that of the plan, and branches made by hand, which differ from another run after the event `from`.\
\n  const branches = [{ from: 0, events: [] }];\n  let chosen = 0, events = branches[0].events, now = 0;\n\n\
\x20 function make(e) {\n    e.breaks = brokenBy(e);\n    events.push(e);\n    redo(e);\n    now = events.length;\n  }\
\n\n\
\x20 function goTo(n) {\n    n = Math.max(0, Math.min(events.length, n));\n    while (now < n) redo(events[now++]);\
\n    while (now > n) undo(events[--now]);\n  }\n\n\
\x20 function branch() {\n    branches.push({ from: now, events: events.slice(0, now) });\n    if (branches.length > B\
RANCH_LIMIT) branches.splice(1, 1);\n    chosen = branches.length - 1;\n    events = branches[chosen].events;\n  }\n\n\
\x20 // Makes the next step of a pass after the events up to now. If the run has another one next, it begins a branch.\
\n  function step(row) {\n    if (now < events.length && events[now].row === row) { goTo(now + 1); return true; }\
\n    const e = now < EVENT_LIMIT ? nextEvent(row) : null;\n    if (!e) return false;\n    if (chosen === 0 || now < e\
vents.length) branch();\n    make(e);\n    return true;\n  }\n\n\
\x20 // Chooses a run: that of the plan at the event after which it differs from this one, another at its last event.\
\n  function choose(k) {\n    const next = branches[k].events;\n    let same = 0;\n    while (same < now && same < nex\
t.length && events[same] === next[same]) same++;\n    goTo(same);\n    chosen = k;\n    events = next;\n    if (k > 0\
) goTo(events.length);\n  }\n\n\
\x20 // A further call of a pass: a send of these words, a close if there are none, or a take. Says what is wrong, or \
nothing.\n  function add(row, words) {\n    const mine = row < senders ? calls[row].length : takes[row - senders];\
\n    if (mine >= CALL_LIMIT) return passName(row) + ' has ' + CALL_LIMIT + ' calls, the most that a plan may have.';\
\n    if (row >= senders) { takes[row - senders]++; return ''; }\n    if (!words) { calls[row].push({ close: true }); \
return ''; }\n    if (words.length < 1 || words.length > 4 || words.some(word => !/^\\d+$/.test(word) || BigInt(word) \
>= 2n ** 64n)) {\n      return 'A body has one to four words, each a whole number below 2^64.';\n    }\n    calls[row]\
.push({ send: words.map(BigInt) });\n    if (words.length > 1) version = 2;\n    return '';\n  }\n\n\
\x20 // The plan of which the events up to `upTo` are the run.\n  function planText(upTo = now) {\n    const body = wo\
rds => version === 2 ? '[' + words.join(',') + ']' : words[0];\n    const schedule = [];\n    for (const e of events.s\
lice(0, upTo)) {\n      const newest = schedule[schedule.length - 1];\n      if (newest && newest.row === e.row) newes\
t.steps++;\n      else schedule.push({ row: e.row, steps: 1 });\n    }\n    return '{' + (version === 2 ? '\"version\"\
:2,\"groups\":' + groups + ',' : '') + '\"capacity\":' + capacity + ',\"bound\":' + bound + ',\"life\":' + life\
\n      + ',\\n \"senders\":[' + calls.map(mine => '[' + mine.map(call => call.close ? '\"close\"' : body(call.send)).\
join(',') + ']').join(',')\n      + '],\\n \"receivers\":[' + takes.join(',') + '],\\n \"schedule\":[' + schedule.map(\
({ row, steps }) => '[\"' + passName(row) + '\",' + steps + ']').join(',') + ']}\\n';\n  }\n\n\
\x20 // The words before a place in the history: 0 is the senders' side, and then come the groups.\n  const front = x \
=> x === 0 ? 'E ' : version === 2 ? 'D ' + x + ' ' : 'D ';\n\n\
\x20 function reportText() {\n    let out = '';\n    history.forEach((s, x) => s.calls.forEach((call, k) => {\n      o\
ut += front(x) + k + ' ' + passName(call.row) + ' ' + callText(call) + ' -> ' + answerText(s.answers[k]) + '\\n';\
\n    }));\n    return out + (variant ? '' : CLEAN + '\\n');\n  }\n\n\
\x20 // An order of all decided calls, each at the event at which it takes effect: where it is decided, but Full at th\
e load of the\n  // cursor. `fault` is the first one whose answer isn't that of a queue that does one call after anoth\
er.\n  function order() {\n    const effects = [], at = history.map(() => 0);\n    let scan = 0;\n    events.slice(0, \
now).forEach((e, i) => {\n      if (e.place.service && e.place.service.is === 'ReadCursor') scan = i;\n      if (!e.de\
cides) return;\n      const call = history[e.x + 1].calls[at[e.x + 1]++];\n      effects.push({ x: e.x, call, answer: \
e.decides, decided: i, effect: e.decides[0].is === 'Full' ? scan : i });\n    });\n    effects.sort((a, b) => a.effec\
t - b.effect);\n    const queue = { items: [], got: got.map(() => 0), shut: false };\n    let fault = null;\n    for (\
const one of effects) {\n      const wanted = one.call ? alone(queue, one) : 'nothing';\n      if (answerText(one.answ\
er) !== wanted && !fault) fault = { ...one, wanted };\n    }\n    return { effects, fault };\n  }\n\n\
\x20 // What a queue answers that does one call after another, and changes it.\n  function alone(queue, { x, call }) {\
\n    const total = queue.items.length;\n    if (call.close) {\n      if (queue.shut) return 'already ' + total;\
\n      queue.shut = true;\n      return 'shut ' + total;\n    }\n    if (call.send) {\n      if (queue.shut) return '\
closed';\n      if (total === life) return 'spent';\n      if (total - Math.min(...queue.got) === capacity) return 'fu\
ll';\n      queue.items.push(call);\n      return 'accepted ' + total;\n    }\n    const k = queue.got[x];\n    if (k \
=== total) return queue.shut ? 'ended ' + total : 'empty';\n    queue.got[x]++;\n    return 'got ' + k + ' s' + (queue\
.items[k].row + 1) + ' ' + queue.items[k].number + ' ' + queue.items[k].send.join(' ');\n  }\n\n\
\x20 // The whole run, once: by the schedule, or as the program wrote it and compared with that.\n  const faults = [];\
\n  let is_long = false;\n  for (const [entry, { row, steps }] of plan.schedule.entries()) {\n    for (let k = 0; k < \
steps && !is_long; k++) {\n      const e = nextEvent(row);\n      if (!e) break;\n      is_long = events.length >= EVE\
NT_LIMIT;\n      if (!is_long) make({ ...e, entry });\n    }\n  }\n  if (is_long) faults.push('The run has more than \
' + EVENT_LIMIT + ' events, and the first ' + EVENT_LIMIT + ' are here.');\n  for (const { row, kind } of plan.writte\
n || []) {\n    const e = nextEvent(row);\n    if (!e) { faults.push('Event ' + (events.length + 1) + ' is of ' + pass\
Name(row) + ', which has no call to make.'); break; }\n    if (number[e.kind] !== kind && faults.length === 0) {\
\n      faults.push('Event ' + (events.length + 1) + ' of ' + passName(row) + ' is ' + (KINDS[kind] || ['of no kind'])\
[0] + ' by the program, and ' + e.kind + ' by this page.');\n    }\n    make(e);\n  }\n  if (report !== null) {\n    c\
onst reported = report.split('\\n'), mine = reportText().split('\\n');\n    const differs = mine.findIndex((line, i) =\
> line !== reported[i]);\n    if (differs >= 0 || reported.length > mine.length) {\n      const i = differs >= 0 ? dif\
fers : mine.length;\n      faults.push('Line ' + (i + 1) + ' of the report is \"' + (reported[i] ?? '') + '\" by the p\
rogram, and \"' + (mine[i] ?? '') + '\" by this page.');\n    }\n  }\n\n\
\x20 return {\n    capacity, bound, life, groups, senders, receivers, rows, calls, takes, schedule: plan.schedule, fau\
lts, branches, history, stands, variant, got, accepted,\n    get version() { return version; }, get events() { return \
events; }, get now() { return now; }, get chosen() { return chosen; },\n    words: () => [...mem].filter(([, v]) => v \
!== 0n).sort(),\n    passName, chainOf, rowsOf, read, side, lastTurn, holderOf, requestAt, waitOf, nextCall, nextEvent\
, brokenBy, redo, undo, goTo, step, choose, add, planText, reportText, front, order,\n  };\n}\n\n\
// The same schedule by another table: `run` is its run, `upTo[n]` how many of its events belong to the first n of th\
e one beside it,\n// and `parts` the number of events that both have in common, or -1 if they never part. `follow` doe\
s what is new since.\nfunction beside(one, variant) {\n  const { version, capacity, bound, life, groups, calls, takes\
, events } = one;\n  const run = open({ version, capacity, bound, life, groups, calls, takes, schedule: [] }, variant)\
;\n  const pair = { run, events, upTo: [0], parts: -1, follow };\n  const same = (e, f) => e.kind === f.kind && keyOf(\
e.w) === keyOf(f.w) && e.found === f.found && e.value === f.value;\n  // tries a step of a pass, beside an event or no\
ne\n  function attempt(row, e) {\n    const { upTo } = pair, made = run.step(row) && run.events[run.now - 1];\n    if \
(pair.parts < 0 && (e || made) && !(e && made && same(e, made))) pair.parts = upTo.length - 1;\n    if (e) upTo.push(r\
un.now); else upTo[upTo.length - 1] = run.now;\n    return e || made;\n  }\n  function follow() {\n    run.goTo(run.ev\
ents.length);\n    while (pair.upTo.length <= events.length) attempt(events[pair.upTo.length - 1].row, events[pair.upT\
o.length - 1]);\n    run.goTo(pair.upTo[one.now]);\n    return pair;\n  }\n  // a schedule may have steps that only on\
e of the two runs makes\n  const scheduled = one.chosen === 0 ? one.schedule : [];\n  for (const [entry, { row, steps \
}] of scheduled.entries()) {\n    const mine = events.filter(e => e.entry === entry);\n    for (let k = 0; k < steps &\
& attempt(row, mine[k]); k++);\n  }\n  return follow();\n}\n\n\
// Whether a run reaches the goal of an exercise: the number of the event with which it does, or 0. A goal is laws, o\
f which one\n// breaks, or an answer that a call returns although it would be another by then.\nfunction reached(run, \
goal) {\n  const got = run.got.map(() => 0);\n  let accepted = 0;\n  for (let i = 0; i < run.now; i++) {\n    const e \
= run.events[i], decided = e.decides && e.decides[0].is, returned = e.answer && e.answer[0].is;\n    if (decided === '\
Accepted') accepted++;\n    if (decided === 'Got') got[e.x]++;\n    if (goal.breaks && e.breaks.some(law => goal.break\
s.includes(law))) return i + 1;\n    if (goal.returns === 'Empty' && returned === 'Empty' && got[e.x] < accepted) retu\
rn i + 1;\n    if (goal.returns === 'Full' && returned === 'Full' && accepted - Math.min(...got) < run.capacity) retur\
n i + 1;\n  }\n  return 0;\n}\n\n\
// A shortest schedule after which `is_goal` holds of the last event: all states that n steps lead to, for n = 1, 2 an\
d so on. A read of a\n// state that is 1 leads to no other state. It gives the number of steps and of states from tim\
e to time, and returns the passes of the\n// steps, or null if there is no such schedule or if `most` states were look\
ed at.\nfunction* shortest(run, is_goal, most = Infinity) {\n  const texts = new WeakMap(), numbers = new Map(), value\
s = [], sides = run.history.map(() => ''), undone = [];\n  const small = (_, value) => typeof value === 'bigint' ? Num\
ber(value) : value;\n  const standText = stand => { if (!texts.has(stand)) texts.set(stand, JSON.stringify([stand.made\
, stand.node, stand.place], small)); return texts.get(stand); };\n  const put = (w, value) => { const key = keyOf(w); \
if (!numbers.has(key)) { numbers.set(key, values.length); values.push(0); } values[numbers.get(key)] = Number(value); \
};\n  const knows = call => Object.values(call.knows).join();\n  function redo(e) {\n    run.redo(e);\n    put(e.w, e.\
value);\n    undone.push(sides[e.x + 1]);\n    sides[e.x + 1] += (e.enters ? '|' + e.enters.row + ' ' + knows(e.enters\
) : '') + (e.decides ? '>' + answerText(e.decides) : '') + (e.marks ? '.' : '');\n  }\n  function undo(e) {\n    run.u\
ndo(e);\n    put(e.w, e.found);\n    sides[e.x + 1] = undone.pop();\n  }\n  const pathTo = state => { const path = []\
; for (; state.e; state = state.before) path.unshift(state); return path; };\n  const seen = new Set();\n  for (let le\
vel = [{ e: null, before: null }], here = [], steps = 1; level.length; steps++) {\n    const next = [];\n    for (cons\
t [k, state] of level.entries()) {\n      if (k % 50 === 0) yield { steps, states: seen.size };\n      const path = pa\
thTo(state);\n      let same = 0;\n      while (same < here.length && same < path.length && here[same] === path[same]\
) same++;\n      while (here.length > same) undo(here.pop().e);\n      for (; same < path.length; same++) { redo(path[\
same].e); here.push(path[same]); }\n      for (let row = 0; row < run.rows; row++) {\n        const e = run.nextEvent(\
row);\n        if (!e || e.waits) continue;\n        e.breaks = run.brokenBy(e);\n        redo(e);\n        if (is_goa\
l(e)) return [...path, { e }].map(one => one.e.row);\n        const key = run.stands.map(standText).join('') + values.\
join() + sides.join('/');\n        if (!seen.has(key)) { seen.add(key); next.push({ e, before: state }); }\n        un\
do(e);\n      }\n      if (seen.size > most) return null;\n    }\n    level = next;\n  }\n  return null;\n}\n\n\
// Random schedules of at most this number of steps, each by a run that `fresh` opens, until one breaks a law. It give\
s the number of\n// schedules from time to time, and returns the run, which ends with that event; or null after `most\
` schedules. A pass makes one to\n// sixteen steps before another one is chosen.\nfunction* broken(fresh, steps, most\
) {\n  for (let tries = 1; tries <= most; tries++) {\n    if (tries % 5 === 1) yield tries;\n    const run = fresh();\
\n    for (let left = steps, alive = true; alive && left > 0;) {\n      const able = [...Array(run.rows).keys()].filte\
r(row => run.nextEvent(row));\n      const row = able[Math.floor(Math.random() * able.length)];\n      for (let k = 1 \
+ Math.floor(Math.random() * 16); k > 0 && left > 0 && able.length; k--, left--) {\n        if (!run.step(row)) break;\
\n        if (run.events[run.now - 1].breaks.length) return run;\n      }\n      alive = able.length > 0;\n    }\n  }\
\n  return null;\n}\n\n\
const further = tag => Number(Codes_further_words(tag));\nconst codeOf = ret => Number(Codes_code_of(ret));\nreturn { \
open, beside, reached, shortest, broken, planOfRun, planOfText, CHANGES, LAWS, KINDS, EVENT_LIMIT, OUTSIDE, number, ta\
il, node, item, object, keyOf, callText, answerText, further, codeOf,\n  senderOf: Codes_tag_sender, numberOf: Codes_t\
ag_number, valueOf: Codes_value_of, listReads: Codes_list_reads };\n})();\n</script>\n<script id=\"telling\">\n// The \
texts of a state, without their pictures; tests/show/reads.py decides their values by a second program. In a text *..\
* is\n// bold, `..` a word of the table, [[..]] one of the glossary.\nconst Telling = (() => {\n'use strict';\n\n\
const { LAWS, OUTSIDE, tail, node, item, object, callText, answerText, further, codeOf, senderOf, numberOf, valueOf, l\
istReads } = Machine;\nconst plural = (n, word) => n + ' ' + word + (n === 1 ? '' : /s$/.test(word) ? 'es' : 's');\nco\
nst inWords = list => list.length < 2 ? list.join('') : list.slice(0, -1).join(', ') + ' and ' + list[list.length - 1]\
;\nconst ordinal = n => n + (/1[123]$/.test(n) ? 'th' : { 1: 'st', 2: 'nd', 3: 'rd' }[String(n).slice(-1)] || 'th');\n\
const STATES = ['serve', 'wait', 'done'];\n\n\
// An answer, of its text in a report: accepted as item 0, got 7 as item 0, ended after 1 item.\nfunction saidOf(text\
) {\n  const [word, number, , , ...body] = text.split(' ');\n  if (word === 'accepted') return 'accepted as item ' + n\
umber;\n  if (word === 'got') return 'got ' + body.join(' ') + ' as item ' + number;\n  return number === undefined ? \
word : { shut: 'shut', already: 'already shut', ended: 'ended' }[word] + ' after ' + plural(Number(number), 'item');\n\
}\nconst answerOf = answer => saidOf(answerText(answer));\n\n\
const chainName = (run, x) => x < 0 ? 'send chain' : run.groups > 1 ? 'take chain of group ' + (x + 1) : 'take chain';\
\nconst tagText = tag => 'the ' + ordinal(numberOf(tag)) + ' send of s' + senderOf(tag);\n// What a pass asks for: s2 \
sends 7.\nconst asks = (run, row, words) => run.passName(row) + (words === null ? ' takes' : words === '' ? ' closes' \
: ' sends ' + words);\nconst requestText = (run, call) => call ? asks(run, call.row, call.take ? null : call.close ? '\
' : call.send.join(' ')) : 'a request of no call';\n\n\
// What a word has: a link names a node, and the others have their own texts.\nfunction valueText(run, w, v) {\n  cons\
t link = n => n === 0n ? 'null' : n - 1n === BigInt(run.capacity + 1) && w.at !== 'tail' && w.at !== 'node' ? 'the mar\
k' : 'node ' + (n - 1n);\n  if (w.at === 'tail' || w.field === 'next' || w.field === 'head' || w.field === 'last') ret\
urn link(v);\n  if (w.field === 'cursor') return 'node ' + v;\n  if (w.field === 'state') return v + ' (' + STATES[Num\
ber(v)] + ')';\n  if (w.field === 'shut') return v === 0n ? '0 (open)' : '1 (shut)';\n  if (w.field === 'passed') retu\
rn v + ' of ' + plural(run.groups, 'group');\n  if (w.field === 'tag') return v === 0n ? '0 (a close, or none)' : tagT\
ext(v) + ', ' + plural(further(v) + 1, 'word');\n  if (w.field === 'ret') return v === 0n ? 'none' : w.x < 0 ? answerO\
f(listReads(v)) : ['none', 'got item ' + valueOf(v), 'empty', 'ended after ' + plural(Number(valueOf(v)), 'item')][cod\
eOf(v)];\n  return String(v);\n}\n\n\
const FIELDS = { next: 'next link', ret: 'answer', passed: 'passed count' };\nfunction wordText(run, w) {\n  const fie\
ld = w.field === 'body' ? ordinal(w.n + 1) + ' word' : FIELDS[w.field] || w.field;\n  if (w.at === 'tail') return 'th\
e tail of the ' + chainName(run, w.x);\n  if (w.at === 'node') return 'the ' + field + ' of node ' + w.i + ' in the ' \
+ chainName(run, w.x);\n  if (w.at === 'item') return 'the ' + field + ' of ' + (w.i === run.capacity + 1 ? 'the closi\
ng mark' : 'list node ' + w.i);\n  return '`' + w.field + '`' + (w.g === undefined || run.groups === 1 ? '' : ' of gro\
up ' + (w.g + 1));\n}\n\n\
// ---- The newest event.\n\n\
// What it did to its word; what it is for; and what is decided by it.\nfunction event(run) {\n  if (run.now === 0) re\
turn ['*The opening.* Every pass is idle, each tail names node 0 of its chain, and the list is its dummy alone.'];\n  \
const e = run.events[run.now - 1], word = wordText(run, e.w), name = run.passName(e.row);\n  const value = v => '*' + \
valueText(run, e.w, v) + '*';\n  const texts = [(e.does === 'reads' ? '*' + name + '* reads ' + word + ': ' + value(e.\
found)\n    : e.does === 'swaps' ? '*' + name + '* swaps ' + value(e.value) + ' into ' + word + ' and gets ' + value(e\
.found)\n    : e.does === 'adds' ? '*' + name + '* adds 1 to ' + word + ': now ' + value(e.value)\n    : e.value === e\
.found ? '*' + name + '* writes ' + value(e.value) + ' into ' + word + ', which had this value'\n    : '*' + name + '\
* changes ' + word + ' from ' + value(e.found) + ' to ' + value(e.value)) + '.'];\n  if (e.begins) texts.push('This i\
s the first step of its call: ' + callText(e.call) + '.');\n  if (e.served) texts.push('It serves ' + (e.serves && e.s\
erves === e.call ? 'its own request' : 'the request') + ' in node ' + e.served.node + ': ' + requestText(run, e.serves\
) + '.');\n  if (e.waits) texts.push('It waits: nothing changes.');\n  if (e.enters) texts.push('*The call enters the \
history.*');\n  if (e.decides) texts.push('*Decided: ' + answerOf(e.decides) + '.*');\n  if (e.answer) texts.push('*Th\
e call returns: ' + answerOf(e.answer) + '.*');\n  return texts;\n}\n\n\
// ---- A pass.\n\n\
function pass(run, row) {\n  const { call, place, turn, made, node: own } = run.stands[row], x = run.chainOf(row);\n  \
if (!call) {\n    const next = run.nextCall(row, made);\n    return { role: 'rest', text: next ? 'idle, next ' + callT\
ext(next) : 'idle, no call left' };\n  }\n  const what = callText(call);\n  if (turn) return { role: 'serve', text: 'c\
ombines, ' + turn.length + ' of ' + run.bound };\n  if (place.is.startsWith('ReadAnswer')) return { role: 'answer', te\
xt: 'reads its answer: ' + what };\n  if (place.is !== 'ReadState') return { role: 'enter', text: 'enters: ' + what };\
\n  const state = run.read(node(x, own, 'state'));\n  return state === 1n ? { role: 'wait', text: 'waits: ' + what } \
: state === 0n ? { role: 'serve', text: 'is to serve: ' + what } : { role: 'answer', text: 'answered: ' + what };\n}\n\
\n\
// Of each pass that waits: whose turn it is, and what is ahead of its answer.\nfunction waits(run) {\n  const found \
= [];\n  for (let row = 0; row < run.rows && found.length < 6; row++) {\n    const wait = run.waitOf(row);\n    if (wa\
it) found.push({ row, ...wait, text: '*' + run.passName(row) + '* waits: it is the turn of ' + inWords(wait.turns.map(\
run.passName))\n      + ', and at most *' + plural(wait.ahead, 'step') + '* [[in turn]] ' + (wait.ahead === 1 ? 'is' \
: 'are') + ' ahead of its answer.' });\n  }\n  return found;\n}\n\n\
// ---- A chain.\n\n\
const touched = run => run.now > 0 ? run.events[run.now - 1].w : {};\nconst isTouched = (run, at, x, i) => { const w \
= touched(run); return w.at === at && w.i === i && (at === 'item' || w.x === x); };\n\n\
// The words of a body: of a node of a chain, or of the list.\nconst bodyAt = (run, tag, wordAt) => [...Array(further(\
tag) + 1).keys()].map(n => run.read(wordAt(n))).join(' ');\n\n\
// The answer in a node, by its words.\nfunction answerAt(run, x, i) {\n  const ret = run.read(node(x, i, 'ret'));\n  \
if (x < 0 || codeOf(ret) !== 1) return valueText(run, node(x, i, 'ret'), ret);\n  return 'got ' + bodyAt(run, run.read\
(node(x, i, 'tag')), n => node(x, i, 'body', n)) + ' as item ' + valueOf(ret);\n}\n\n\
// The request in a node of a pass, by its words.\nfunction askedAt(run, x, i, row) {\n  const { place } = run.stands[\
row];\n  if (place.is === 'WriteTag' || place.is === 'WriteBody') return run.passName(row) + ' writes its request';\
\n  const tag = x < 0 ? run.read(node(x, i, 'tag')) : 0n;\n  return asks(run, row, x >= 0 ? null : tag === 0n ? '' : b\
odyAt(run, tag, n => node(x, i, 'body', n)));\n}\n\n\
function turnText(run, row, served, is_over) {\n  const of = served.length ? ': ' + (served.length > 6 ? 'the last si\
x are ' : '') + served.slice(-6).map(call => requestText(run, call)).join(', ') : '';\n  return is_over ? 'In the las\
t turn *' + run.passName(row) + '* served ' + plural(served.length, 'request') + of + '.'\n    : '*' + run.passName(ro\
w) + '* combines, and has served ' + served.length + ' of at most ' + plural(run.bound, 'request') + of + '.';\n}\n\n\
// The arrow from a node to the one that is drawn next, by its next link.\n// Marks in what is told of one queue each \
box that the other queue has otherwise, or not at all.\nfunction markDifferences(told, other) {\n  const boxes = one =\
> [...(one.done || []), ...(one.boxes || []), ...(one.rows || []).flat(), ...(one.free || [])].filter(box => box.key);\
\n  const text = box => box.lines.join() + (box.arrow ? box.arrow.kind + box.arrow.text : ''), others = new Map(boxes(\
other).map(box => [box.key, text(box)]));\n  for (const box of boxes(told)) box.differs = others.get(box.key) !== text\
(box);\n  return told;\n}\n\n\
const linkText = (next, wanted, name) => next === 0n ? { kind: 'none', text: name } : next - 1n === BigInt(wanted) ? \
{ kind: '', text: '' } : { kind: 'wrong', text: 'to node ' + (next - 1n) };\n\n\
// While a pass is at such a place its node has the request of an earlier call, or a part of its own.\nconst OUTSIDE_O\
F_REQUEST = new Set(['WriteTag', 'WriteBody']);\n\n\
// The node that a combiner is at.\nfunction combinerAt({ place: p }) {\n  const at = p.round ? p.round.at : p.job ? p\
.job.round.at : p.was ? p.was.round.at : p.at;\n  return at === undefined ? -1 : Number(at);\n}\n\n\
// The turn; the nodes of calls that wait, in the order of their swaps, and the node in the tail; the nodes that are m\
arked done; and\n// the nodes of passes that are in no chain.\nfunction chain(run, x) {\n  const { stands, read, passN\
ame } = run, rows = run.rowsOf(x), name = chainName(run, x);\n  const state = i => Number(read(node(x, i, 'state')));\
\n  const inside = rows.filter(row => !OUTSIDE.has(stands[row].place.is)).sort((a, b) => stands[a].call.entered - stan\
ds[b].call.entered);\n  const combiners = rows.filter(row => stands[row].turn), last = run.lastTurn(x);\n  const head \
= combiners.map(row => turnText(run, row, stands[row].turn, false));\n  if (!combiners.length) head.push('No pass comb\
ines.', ...(last ? [turnText(run, last.row, last.served, true)] : []));\n  // A pass is a token at its node. A combine\
r goes from node to node: where it is, and whether it serves the request there.\n  const token = (row, says = '') => (\
{ kind: says ? 'stands serves' : 'stands', text: passName(row) + says, of: passName(row) });\n  const at = new Map(com\
biners.map(row => [combinerAt(stands[row]), [token(row, stands[row].place.job ? ' serves this' : ' is here')]]));\n  /\
/ the items in the lines of a node: that of a send, and that of an answer\n  const asked = (row, i) => x >= 0 || OUTSI\
DE_OF_REQUEST.has(stands[row].place.is) || !read(node(x, i, 'tag')) ? [] : [[1, 'asked', read(node(x, i, 'tag'))]];\
\n  const got = i => x >= 0 && codeOf(read(node(x, i, 'ret'))) === 1 ? [[3, 'got ' + x, read(node(x, i, 'tag'))]] : []\
;\n  const end = Number(read(tail(x))) - 1, w = touched(run);\n  const box = (row, role) => {\n    const i = stands[ro\
w].node, is_done = state(i) === 2;\n    return { key: name + ' ' + i, role, ends: [...(at.get(i) || []), ...(stands[ro\
w].turn ? [] : [token(row)])], touch: isTouched(run, 'node', x, i),\n      items: [...asked(row, i), ...(is_done ? got\
(i) : [])],\n      lines: ['node ' + i, askedAt(run, x, i, row), 'state ' + state(i) + ': ' + STATES[state(i)], ...(is\
_done ? [answerAt(run, x, i)] : []),\n        ...(is_done && run.variant ? ['next: ' + valueText(run, node(x, i, 'next\
'), read(node(x, i, 'next')))] : [])] };\n  };\n  const all = inside.filter(row => state(stands[row].node) !== 2), wai\
ting = all.slice(0, 24);\n  const boxes = waiting.map((row, k) => ({ ...box(row, at.has(stands[row].node) ? 'serve' : \
'wait'),\n    arrow: linkText(read(node(x, stands[row].node, 'next')), k + 1 < all.length ? stands[all[k + 1]].node : \
end, 'not linked') }));\n  const more = all.length - waiting.length;\n  const ends = [{ kind: 'tail', text: 'tail', to\
uch: w.at === 'tail' && w.x === x }, ...(at.get(end) || [])];\n  boxes.push({ key: name + ' ' + end, role: 'free', end\
s, touch: isTouched(run, 'node', x, end), more, lines: ['node ' + end, 'of no call yet', 'state ' + state(end) + ': ' \
+ STATES[state(end)]] });\n  const done = inside.filter(row => state(stands[row].node) === 2).slice(0, 24).map(row => \
box(row, 'done'));\n  const spare = rows.filter(row => OUTSIDE.has(stands[row].place.is));\n  return { x, name, head, \
boxes, done, is_used: rows.some(row => stands[row].made > 0 || run.nextCall(row, 0)),\n    is_busy: boxes.length > 1 |\
| done.length > 0,\n    spare: spare.slice(0, 24).map(row => ({ key: name + ' ' + stands[row].node, of: passName(row)\
, text: passName(row) + ': node ' + stands[row].node,\n      touch: isTouched(run, 'node', x, stands[row].node) })), m\
ore_spare: Math.max(0, spare.length - 24) };\n}\n\n\
// ---- The list.\n\n\
// The heads of the groups; the nodes that each group can reach from its head; and these nodes as rows, each up to nul\
l or to a node that\n// is there already. The right queue has one row.\nfunction listOf(run) {\n  const { read, capaci\
ty } = run;\n  const ends = [...Array(run.groups).keys()].map(g => ({ g, taken: read(object('taken', g)), head: Number\
(read(object('head', g))) - 1 }));\n  const next = i => Number(read(item(i, 'next'))) - 1;\n  const walks = ends.map((\
{ head }) => {\n    const places = new Map();\n    for (let at = head; at >= 0 && !places.has(at); at = next(at)) plac\
es.set(at, places.size);\n    return places;\n  });\n  // a head that no link leads to comes first, since a group move\
s its head before its count\n  const linked = new Set(ends.map(({ head }) => next(head)));\n  const first = ends.slice\
().sort((a, b) => Number(a.taken - b.taken) || linked.has(a.head) - linked.has(b.head));\n  const rows = [], all = ne\
w Set();\n  for (const { head } of first) {\n    if (all.has(head)) continue;\n    const nodes = [];\n    let at = hea\
d;\n    for (; at >= 0 && !all.has(at); at = next(at)) { nodes.push(at); all.add(at); }\n    rows.push({ nodes, end: a\
t });\n  }\n  const serving = run.rowsOf(-1).filter(row => run.stands[row].turn).map(row => run.stands[row].place.serv\
ice).filter(service => service);\n  const at = kinds => serving.filter(service => kinds.includes(service.is)).map(serv\
ice => Number(service.node));\n  return { ends, walks, rows, all, mark: capacity + 1, last: Number(read(object('last')\
)) - 1, cursor: Number(read(object('cursor'))),\n    prepared: at(['ResetItemNext', 'WriteItemTag', 'WriteItemBody', '\
ReadLast', 'LinkItem']), scanned: at(['ReadPassed']),\n    unwritten: at(['ResetItemNext', 'WriteItemTag', 'WriteItemB\
ody']) };\n}\n\n\
function itemBox(run, list, i) {\n  const { read, groups } = run, w = touched(run);\n  const tag = read(item(i, 'tag')\
), is_mark = i === list.mark, passed = read(item(i, 'passed'));\n  const role = list.prepared.includes(i) ? 'prepare' \
: !list.all.has(i) || !is_mark && passed === BigInt(groups) ? 'free' : list.walks.some(places => places.get(i) > 0) ? \
'wait' : 'dummy';\n  const points = field => w.at === 'object' && w.field === field;\n  const ends = list.ends.filter(\
e => e.head === i).map(e => ({ kind: 'head', text: 'head' + (groups > 1 ? ' ' + (e.g + 1) : ''), touch: points('head'\
) && w.g === e.g }));\n  if (i === list.last) ends.push({ kind: 'tail', text: 'last', touch: points('last') });\n  if \
(i === list.cursor) ends.push({ kind: 'cursor', text: 'cursor', touch: points('cursor') });\n  if (list.scanned.includ\
es(i)) ends.push({ kind: 'looks', text: 'looks here' });\n  const held = tag === 0n ? ['no item'] : ['item ' + bodyAt(\
run, tag, n => item(i, 'body', n)), tagText(tag)];\n  const lines = is_mark ? ['closing mark'] : { prepare: ['is prepa\
red', ...held], free: ['free'], dummy: ['dummy'], wait: held }[role];\n  const items = lines.includes(held[0]) && tag \
!== 0n && !list.unwritten.includes(i) ? [[lines.indexOf(held[0]) + 1, 'item', tag]] : [];\n  return { key: 'list ' + i\
, role, ends, items, touch: isTouched(run, 'item', 0, i), lines: ['node ' + i, ...lines, ...(is_mark ? [] : ['passed b\
y ' + passed + ' of ' + groups])] };\n}\n\n\
function list(run) {\n  const { capacity, groups, read } = run, list = listOf(run), w = touched(run);\n  const boxesO\
f = ({ nodes, end }) => {\n    const shown = nodes.length > 30 ? nodes.slice(0, 15).concat([-1], nodes.slice(-14)) : n\
odes;\n    return shown.map((i, k) => i < 0 ? { more: nodes.length - 29 }\n      : { ...itemBox(run, list, i), arrow: \
k + 1 < shown.length ? { kind: '', text: '' } : end < 0 ? { kind: '', text: 'null' } : { kind: 'wrong', text: 'to nod\
e ' + end } });\n  };\n  const free = [], ordinary = [...Array(capacity + 1).keys()].filter(i => !list.all.has(i)), ou\
tside = ordinary.length;\n  for (const i of ordinary.slice(0, 24)) free.push(itemBox(run, list, i));\n  const word = (\
name, ww) => ({ name, text: valueText(run, ww, read(ww)), touch: w.at === 'object' && w.field === ww.field && w.g === \
ww.g });\n  const of = g => groups > 1 ? ' of group ' + (g + 1) : '', rows = list.rows.map(boxesOf);\n  const words = \
[...['last', 'cursor', 'count', 'shut'].map(field => word(field, object(field))),\n    ...list.ends.flatMap(({ g }) =\
> ['head', 'taken'].map(field => word(field + of(g), object(field, g))))];\n  // a word that is drawn as an arrow to \
a node isn't said once more\n  const arrows = new Set([...rows.flat(), ...free].flatMap(box => box.ends || []).map(en\
d => end.text.replace(/^head (\\d)/, 'head of group $1')));\n  return { rows, free, outside, more: Math.max(0, outsid\
e - 24), words: words.filter(({ name }) => !arrows.has(name)) };\n}\n\n\
// ---- The program: its lines with the places of the table that belong to each, and what holds there.\nconst PROGRAM \
= {\n  call: ['A call', [\n    ['own.next \\u2190 null; own.state \\u2190 1', ['ResetNext', 'ResetState'], 'The own no\
de is in no chain: no call has it, and the tail names another one.'],\n    ['node \\u2190 swap(tail, own)', ['Exchange\
'], 'All nodes that passes have and the node in the tail are different. The order of the swaps is the order of the cal\
ls.'],\n    ['node.request \\u2190 request', ['WriteTag', 'WriteBody'], 'The next link of the node is still null, so n\
o combiner reads the request before it is whole.'],\n    ['node.next \\u2190 own', ['Link'], 'A link that is not null \
says: the request before it is whole.'],\n    ['repeat state \\u2190 node.state', ['ReadState'], 'A pass reads 0 only \
while no pass of its chain combines.'],\n    ['until state \\u2260 1', [], ''],\n    ['if state = 0: combine', [], '']\
,\n    ['return node.answer', ['ReadAnswer', 'ReadAnswerTag', 'ReadAnswerBody'], 'The answer in the node is the answe\
r of this call in the history.'],\n  ]],\n  combine: ['Combine', [\n    ['at \\u2190 node; served \\u2190 0', [], ''],\
\n    ['until served = bound:', [], ''],\n    ['  next \\u2190 at.next; if null: stop', ['ReadNext'],\n      'The comb\
iner is at the first call that has no answer, or at the node in the tail. This node is not marked done yet: afterward\
s its owner may clear the link.'],\n    ['  serve at.request', [], ''],\n    ['  at.answer \\u2190 answer', ['WriteAns\
wer', 'WriteAnswerTag', 'WriteAnswerBody'], 'The state of the node is not 2 yet, so its owner does not read the answer\
.'],\n    ['  at.state \\u2190 2', ['MarkDone'], 'All calls before this one are marked done, and no call after it.'],\
\n    ['  at \\u2190 next; served \\u2190 served + 1', ['FollowNext'], 'The next link is read before the node is marke\
d done.'],\n    ['at.state \\u2190 0', ['HandOver'], 'The hand-over goes to the first call that has no answer, or to t\
he node in the tail. From here on this pass does not combine.'],\n  ]],\n  send: ['Serve a send', [\n    ['request \\u\
2190 at.request', ['Sending.ReadTag', 'Sending.ReadBody'], 'The request is whole: its link was written after it.'],\
\n    ['if shut: return Closed', ['Sending.ReadShut', 'Sending.ReadTotal'], 'No other pass combines in this chain, an\
d only a combiner writes shut: it is 1 if a close was decided, and else 0.'],\n    ['if count = life: return Spent', [\
'Sending.ReadCount'], 'The count is the number of accepted items.'],\n    ['i \\u2190 cursor', ['Sending.ReadCursor']\
, 'If this send will be Full, all ordinary nodes are busy now, and it takes effect here.'],\n    ['while passed[i] < g\
roups: i \\u2190 i+1, or Full', ['Sending.ReadPassed'], 'A node is free if every group has gone past it. In this scan \
each ordinary node is read once at most.'],\n    ['passed[i] \\u2190 0; next[i] \\u2190 null', ['Sending.ResetPassed'\
, 'Sending.ResetItemNext'], 'No head and no link of the list names this node, so no take can read it.'],\n    ['item[i\
] \\u2190 request', ['Sending.WriteItemTag', 'Sending.WriteItemBody'], 'This node is not in the list yet: the item is \
written before the link to it.'],\n    ['next[last] \\u2190 i', ['Sending.ReadLast', 'Sending.LinkItem'], 'The word la\
st names the last node of the list. With the link to the new node the send is accepted.'],\n    ['last, count, cursor \
\\u2190 i, +1, i + 1', ['Sending.WriteLast', 'Sending.WriteCount', 'Sending.WriteCursor'],\n      'No other pass combi\
nes in this chain, and only a combiner writes these three words.'],\n  ]],\n  close: ['Serve a close', [\n    ['if shu\
t: return Already', ['Closing.ReadTag', 'Closing.ReadBody', 'Closing.ReadShut', 'Closing.ReadTotal'], 'A queue that i\
s shut stays shut.'],\n    ['next[last] \\u2190 mark', ['Closing.ReadCount', 'Closing.ReadLastToClose', 'Closing.LinkM\
ark'], 'The mark is a node of its own, and no item uses it: so a close is never Full.'],\n    ['last \\u2190 mark; shu\
t \\u2190 1', ['Closing.WriteLastMark', 'Closing.WriteShut'], 'No node follows the mark in the list.'],\n  ]],\n  take\
: ['Serve a take', [\n    ['dummy, k \\u2190 head, taken', ['Taking.ReadHead', 'Taking.ReadTaken'], 'The group has tak\
en k items, and the dummy is the node of the newest of them, or the first node of all.'],\n    ['i \\u2190 next[dummy]\
; if null: return Empty', ['Taking.ReadDummyNext'], 'A null link after the dummy means: the group took every accepted \
item, and the queue is not shut.'],\n    ['if tag[i] = 0: return Ended', ['Taking.ReadItemTag'], 'Only the mark has th\
e tag 0. The node after the dummy has item k.'],\n    ['item \\u2190 item[i]', ['Taking.ReadItemBody'], 'The node afte\
r the dummy is not free: this group has not gone past it.'],\n    ['head, taken \\u2190 i, k + 1', ['Taking.WriteHead'\
, 'Taking.WriteTaken'], 'The new dummy is in the list, and is not free.'],\n    ['passed[dummy] \\u2190 passed[dummy] \
+ 1', ['Taking.AddPassed'], 'The head of this group is past the old dummy. The node is free once every group has adde\
d 1.'],\n  ]],\n};\n// The lines that a broken table changes.\nconst BROKEN_LINES = {\n  marked_early: { combine: { 2\
: '  if at.next is null: stop', 6: '  at \\u2190 at.next; served \\u2190 served + 1' } },\n  handed_past: { combine: \
{ 1: 'until served = bound: then at \\u2190 at.next' } },\n  freed_dummy: { take: { 5: 'passed[i] \\u2190 passed[i] + \
1' } },\n  one_group: { send: { 4: 'while passed[i] = 0: i \\u2190 i+1, or Full' } },\n  full_early: { send: { 4: 'whi\
le passed[i] < groups: i+1, or Full 2 early' } },\n};\nconst LINE_OF = new Map();    // by the name of a place\nfor (c\
onst [part, [, lines]] of Object.entries(PROGRAM)) lines.forEach(([, places], k) => places.forEach(place => LINE_OF.se\
t(place, { part, k })));\n// At the end of a line: the words of its steps, as the lanes have them.\nconst WORDS_OF = \
{ ResetNext: 'clear', ResetState: 'set 1', Exchange: 'swap', WriteTag: 'ask', Link: 'link', ReadState: 'state?', ReadA\
nswer: 'answer',\n  ReadNext: 'next?', WriteAnswer: 'reply', MarkDone: 'done', HandOver: 'hand',\n  'Sending.ReadTag'\
: 'asked?', 'Sending.ReadShut': 'read', 'Sending.ReadCount': 'read', 'Sending.ReadCursor': 'read', 'Sending.ReadPassed\
': 'free?',\n    'Sending.ResetPassed': 'reset', 'Sending.WriteItemTag': 'item', 'Sending.LinkItem': 'read append', 'S\
ending.WriteLast': 'write',\n  'Closing.ReadTag': 'asked? read', 'Closing.LinkMark': 'read append', 'Closing.WriteShut\
': 'write', 'Taking.ReadHead': 'read',\n    'Taking.ReadDummyNext': 'first?', 'Taking.ReadItemTag': 'item?', 'Taking.R\
eadItemBody': 'item?', 'Taking.WriteHead': 'write',\n    'Taking.AddPassed': 'passed' };\n// The place of a step in th\
e program: that of a close has its own lines.\nfunction placeOf(e) {\n  if (!e.place.service) return e.place.is;\n  re\
turn (e.x >= 0 ? 'Taking.' : e.serves && e.serves.close ? 'Closing.' : 'Sending.') + e.place.service.is;\n}\n\n\
// The line of the newest event, and what holds there: in a broken table, of the right queue.\nfunction program(run) {\
\n  if (run.now === 0) return null;\n  const e = run.events[run.now - 1], { part, k } = LINE_OF.get(placeOf(e)), chang\
ed = (BROKEN_LINES[run.variant] || {})[part] || {};\n  return { part, k, title: PROGRAM[part][0], line: changed[k] || \
PROGRAM[part][1][k][0], holds: (run.variant ? 'What holds of the right queue' : 'What holds here') + ': ' + PROGRAM[pa\
rt][1][k][2] };\n}\n\n\
// ---- The columns of the lanes, and the turns: of a run as it stands, to its last event.\n\n\
// Each event has a column of its own, but the reads of a pass that waits have one together. `laid` is what was laid o\
ut before, which\n// is continued if the events are the same and more.\nfunction layOut(events, laid) {\n  if (laid &\
& laid.events === events && laid.length === events.length) return laid;\n  if (!laid || laid.events !== events || laid\
.length > events.length) laid = { events, length: 0, column: [], first: [], waits: new Map(), newest: new Map(),\n    \
turns: [], open: new Map(), acting: new Set() };\n  for (let i = laid.length; i < events.length; i++) {\n    const e \
= events[i];\n    laid.acting.add(e.row);\n    const wait = laid.newest.get(e.row);\n    if (e.waits && wait) {\
\n      wait.reads++;\n      wait.to = laid.first.length - 1;\n    } else {\n      laid.first.push(i);\n      const on\
e = e.waits ? { row: e.row, event: i, from: laid.first.length - 1, to: laid.first.length - 1, reads: 1 } : null;\
\n      laid.newest.set(e.row, one);\n      if (one) laid.waits.has(e.row) ? laid.waits.get(e.row).push(one) : laid.wa\
its.set(e.row, [one]);\n    }\n    laid.column.push(laid.first.length - 1);\n    if (!e.before.turn && e.after.turn) {\
\n      const turn = { x: e.x, row: e.row, from: i, to: i, served: [], is_over: false };\n      laid.open.set(e.row, t\
urn);\n      laid.turns.push(turn);\n    }\n    const turn = laid.open.get(e.row);\n    if (turn) {\n      turn.to = i\
;\n      if (e.marks) turn.served.push([i, e.serves]);\n      if (e.over) {\n        turn.is_over = true;\n        lai\
d.open.delete(e.row);\n      }\n    }\n  }\n  laid.length = events.length;\n  // a turn that isn't over reaches to th\
e last event\n  for (const turn of laid.open.values()) turn.to = events.length - 1;\n  return laid;\n}\n\n\
const turnTitle = (run, turn) => run.passName(turn.row) + ' combines from event ' + (turn.from + 1) + (turn.is_over ? \
' to ' + (turn.to + 1) : ' on') + ', and serves '\n  + (turn.served.map(([, call]) => requestText(run, call)).join(', \
') || 'no request yet');\nconst waitText = (run, wait) => run.passName(wait.row) + ' waits: it reads its state ' + plu\
ral(wait.reads, 'time') + ' from event ' + (wait.event + 1) + ' on';\n\n\
// ---- Laws, an order of all calls, and two runs side by side.\n\n\
// The laws that the first events have broken, each with the first event that broke it.\nfunction broken(run, upTo = r\
un.now) {\n  const found = [];\n  for (let i = 0; i < upTo; i++) for (const law of run.events[i].breaks) if (!found.so\
me(one => one.law === law)) found.push({ law, event: i + 1, text: LAWS[law][0], by: LAWS[law][1] });\n  return found;\
\n}\n\n\
// What the player says of them: the first one, and how many others.\nconst banner = ([first, ...others]) => first ? '\
Broken: ' + first.text.replace(/\\.$/, '') + ' (event ' + first.event + ')'\n  + (others.length ? ', and ' + plural(ot\
hers.length, 'other law') : '') + '.' : '';\n\n\
// The order of all decided calls, each at the event at which it takes effect.\nfunction order(run) {\n  const { effec\
ts, fault } = run.order();\n  const said = !run.variant ? 'In this order each answer is that of a queue that does one \
call after another: every run is linearizable, and that is proved.'\n    : fault ? 'In this order *' + requestText(run\
, fault.call) + '* is answered *' + answerOf(fault.answer) + '*, and a queue that does one call after another answers \
' + saidOf(fault.wanted) + '.'\n    : 'So far each answer is that of a queue that does one call after another.';\n  re\
turn { said, rows: effects.map(one => ({ effect: one.effect + 1, decided: one.decided + 1, call: requestText(run, one.\
call), answer: answerOf(one.answer) })) };\n}\n\n\
// Of two runs of one schedule: where they part.\nfunction parting(pair) {\n  return pair.parts < 0 ? 'In this run bot\
h queues do the same.' : 'The two queues do the same up to event ' + pair.parts + ', and part at event ' + (pair.part\
s + 1) + '.';\n}\n\n\
// What a run is of, as its title.\nfunction titleOf(run) {\n  const sends = run.rows - run.groups * run.receivers, ma\
ny = run.groups > 1 ? run.groups + ' groups of ' : '';\n  return 'A run of ' + plural(sends, 'sender') + ' and ' + man\
y + plural(run.receivers, 'receiver') + ', ' + plural(run.events.length, 'event');\n}\n\n\
// ---- Lessons and exercises.\n\n\
// The lessons of their text. A field of a sentence, {pass:s1}, is shown as its value, which tests/show/reads.py decid\
es.\nconst lessons = text => JSON.parse(text.replace(/\\{\\w+:([^{}\"]*)\\}/g, '$1'));\n\n\
// The title, the text and the moments of a lesson: of a broken queue by its own table, or by the right one.\nfunctio\
n lessonPart(lesson, variant) {\n  if (!lesson.table) return lesson;\n  return variant ? { ...lesson, title: 'Broken: \
' + lesson.title } : { ...lesson.right, title: 'Right: ' + lesson.right.title };\n}\n\n\
// The screens of a lecture on a lesson: its opening, its moments, and of a broken queue where it parts from the righ\
t one, and the\n// moments of that. A screen has the first sentence of a text.\nfunction screens(lesson, pair) {\n  co\
nst sentence = text => text.split('. ')[0].replace(/\\.?$/, '.'), table = lesson.table || '';\n  const { title, text, \
moments } = lessonPart(lesson, table);\n  const of = (part, by) => part.moments.map(([event, , text]) => ({ kind: 'mom\
ent', table: by, title: part.title, text: sentence(text), event }));\n  return [{ kind: 'opening', table, title, text\
: sentence(text), event: 0 }, ...of({ title, moments }, table),\n    ...(pair ? [{ kind: 'pair', table, title: 'The br\
oken queue and the right one', text: parting(pair), event: pair.parts + 1 }, ...of(lessonPart(lesson, ''), '')] : [])]\
;\n}\n\n\
// The steps of a run after the first ones, each pass with a number of steps in a row; and such steps made.\nfunction \
stepsOf(run, from) {\n  const steps = [];\n  for (const e of run.events.slice(from)) {\n    const name = run.passName(\
e.row), newest = steps[steps.length - 1];\n    if (newest && newest[0] === name) newest[1]++; else steps.push([name, 1\
]);\n  }\n  return steps;\n}\nfunction makeSteps(run, steps) {\n  for (const [name, count] of steps) {\n    const row \
= [...Array(run.rows).keys()].find(one => run.passName(one) === name);\n    for (let k = 0; row !== undefined && k < c\
ount && run.step(row); k++);\n  }\n}\n\n\
// Whether the exercise is solved by the events up to now.\nfunction task(run, { goal }) {\n  const at = Machine.reach\
ed(run, goal);\n  if (!at) return { solved: 0, text: 'Not solved yet.' };\n  const e = run.events[at - 1], law = (e.br\
eaks || []).find(one => (goal.breaks || []).includes(one));\n  return { solved: at, text: '*Solved at event ' + at + '\
:* ' + (law ? 'it breaks the law \"' + LAWS[law][0].replace(/\\.$/, '') + '\".'\n    : goal.returns === 'Empty' ? 'th\
e take of ' + run.passName(e.row) + ' returns empty, and an accepted item is in the queue.' : 'the send of '\n      + \
run.passName(e.row) + ' returns full, and a list node is free.') };\n}\n\n\
return { answerOf, chainName, requestText, valueText, wordText, event, pass, waits, chain, list, markDifferences, titl\
eOf, PROGRAM, BROKEN_LINES, WORDS_OF, program, placeOf, layOut,\n  turnTitle, waitText, broken, banner, order, parting\
, lessons, lessonPart, screens, stepsOf, makeSteps, task, plural };\n})();\n</script>\n<script type=\"text/plain\" id=\
\"report\">";

/// The text after the report.
pub const BACK: &[u8] = b"\
</script>\n<script>\n(() => {\n'use strict';\n\n\
const { CHANGES, KINDS, EVENT_LIMIT, number, callText } = Machine;\nconst { plural, chainName } = Telling;\nconst GROU\
PS_OF_KINDS = { enter: 'enters its chain', wait: 'reads its state', serve: 'serves', hand: 'marks done, hands over', a\
nswer: 'reads its answer' };\nconst $ = id => document.getElementById(id);\nconst LESSONS = Telling.lessons($('lessons\
').textContent);\nconst EXERCISES = JSON.parse($('exercises').textContent);\nconst TOUR = LESSONS.filter(lesson => les\
son.kind === 'tour');\n\n\
// The run that is shown, and what of it doesn't change.\nlet run, groups, senders, receivers, rows, passName, stands;\
\nlet source = {};              // the lesson, the exercise, the plan or the program's text that the run is of\nfuncti\
on use(opened) {\n  run = opened;\n  ({ groups, senders, receivers, rows, passName, stands } = run);\n}\n\n\
let drawn = {};               // what the parts of the page were drawn from, which are drawn again only if that change\
d\nfunction show(id, html) {\n  if (drawn[id] === html) return false;\n  drawn[id] = html;\n  $(id).innerHTML = html;\
\n  return true;\n}\nconst escape = text => text.replace(/[&<>\"]/g, sign => '&#' + sign.charCodeAt(0) + ';');\n\n\
// ---- The glossary.\n\n\
const WORDS = {\n  step: 'One read, write, swap or add of one word. Between two steps of a pass any steps of other pas\
ses may come.',\n  pass: 'One thread at the queue: s1, s2 and so on send, r1, r2 and so on take.',\n  chain: 'A linke\
d list of requests. The senders have one chain, and each group of receivers has one.',\n  node: 'A record in a chain w\
ith a request, an answer, a state and a next link; or a record in the list with one item.',\n  tail: 'The word that na\
mes the last node of a chain. The swap of the tail gives a call its place.',\n  combiner: 'The pass that serves the re\
quests of its chain at the moment. Each chain has at most one.',\n  turn: 'The time in which one pass combines, from t\
he state 0 that it reads to its hand-over.',\n  'in turn': 'A pass is in turn if it combines, is to combine, or still \
writes its request: each of its steps brings the answer of a call that waits nearer.',\n  bound: 'The greatest number \
of requests that a combiner serves in one turn.',\n  'hand-over': 'The store of 0 into the state of the node where th\
e combiner stops: the call that has this node combines next.',\n  decision: 'The step that fixes the answer of a call.\
',\n  history: 'All calls of a side in the order of their swaps, each with its answer or pending.',\n  dummy: 'The fir\
st node of the list. Its item was taken before: the first item that waits is in the node after it.',\n  head: 'The wor\
d that names the dummy. Each group of receivers has its own.',\n  last: 'The word that names the last node of the list\
.',\n  cursor: 'The list node at which the next send begins to look for a free one.',\n  capacity: 'How many items ma\
y wait. The list has one ordinary node more, for the dummy.',\n  passed: 'The number of groups that have gone past a l\
ist node. The node is free if all groups have.',\n  group: 'Receivers that share the items. Each group gets every ite\
m once.',\n  life: 'The number of items that the queue ever accepts.',\n  'closing mark': 'The list node that a close \
links. It follows the last item.',\n};\nconst wordId = word => 'word-' + word.replace(/ /g, '-');\nconst termed = (wor\
d, text) => '<dfn class=\"term\" tabindex=\"0\" role=\"button\" data-word=\"' + word + '\" aria-describedby=\"' + word\
Id(word) + '\">' + text + '</dfn>';\n\n\
// A text as HTML: *..* is bold, `..` a word of the table, and [[..]] a word of the glossary.\nconst marked = text => \
escape(text).replace(/\\*([^*]+)\\*/g, '<b>$1</b>').replace(/`([^`]+)`/g, '<code>$1</code>')\n  .replace(/\\[\\[([^\\]\
]+)\\]\\](s?)/g, (_, word, s) => termed(word.toLowerCase(), word + s));\nconst bare = text => text.replace(/[*`]|\\[\\\
[|\\]\\]/g, '');\n\n\
function explain(term) {\n  const tip = $('tip');\n  tip.textContent = WORDS[term.dataset.word];\n  tip.hidden = false\
;\n  const at = term.getBoundingClientRect();\n  tip.style.left = Math.max(4, Math.min(at.left, document.documentEleme\
nt.clientWidth - tip.offsetWidth - 8)) + window.scrollX + 'px';\n  tip.style.top = (at.bottom + tip.offsetHeight + 8 \
> window.innerHeight ? at.top - tip.offsetHeight - 6 : at.bottom + 6) + window.scrollY + 'px';\n}\nconst hideTip = () \
=> { $('tip').hidden = true; };\n\n\
// ---- Motion: what is in both of two pictures moves from its place in the first to that in the second.\n\n\
const STILL = window.matchMedia('(prefers-reduced-motion: reduce), print');\nlet moved_from = null;        // the run \
and its event, or the lesson and its screen, from which the pictures move\n// What is drawn has a key in its side, an\
d an item a key of its own.\nconst sideOf = element => { const side = element.closest('.side'); return side ? [...docu\
ment.querySelectorAll('.side')].indexOf(side) + ' ' : ''; };\nconst placesOf = (parts, selector, keyOf) => new Map(par\
ts.flatMap(part => [...part.querySelectorAll(selector)]).filter(element => element.getClientRects().length)\n  .map(el\
ement => [sideOf(element) + keyOf(element), element.getBoundingClientRect()]));\nconst boxesOf = parts => placesOf(par\
ts, '[data-key]', element => element.dataset.key);\nconst itemsOf = parts => placesOf(parts, '[data-item]', element =\
> element.dataset.item);\n// Where an item was last, in the page: it leaves the list some steps before it is in an ans\
wer.\nlet items_were = new Map();\nfunction keepItems(items) {\n  for (const [key, { left, top }] of items) items_were\
.set(key, { left: left + window.scrollX, top: top + window.scrollY });\n}\n// An item goes from where it was to where \
it is.\nfunction travels(element) {\n  const was = items_were.get(sideOf(element) + element.dataset.from), is = elemen\
t.getBoundingClientRect();\n  if (!was || !is.width) return null;\n  const left = is.left + window.scrollX, top = is.t\
op + window.scrollY, token = document.createElement('span');\n  token.className = 'traveller';\n  token.setAttribute('\
aria-hidden', 'true');\n  token.textContent = element.textContent.replace(/^\\w\\d+ sends |^got | as item .*|^item /g\
, '');\n  token.style.cssText = 'left:' + left + 'px;top:' + top + 'px';\n  document.body.append(token);\n  const awa\
y = 'translate(' + (was.left - left) + 'px,' + (was.top - top) + 'px)';\n  const motion = token.animate([{ transform: \
away }, { transform: away + ' scale(1.25)', offset: .2 }, { transform: 'none' }], { duration: 700, easing: 'ease-in-ou\
t' });\n  return motion.finished.finally(() => token.remove());\n}\nfunction moving(parts, of, at, draw) {\n  const mo\
ves = moved_from && moved_from.of === of && moved_from.at !== at, is_forwards = moves && at > moved_from.at;\n  if (!m\
oved_from || moved_from.of !== of) items_were = new Map();\n  moved_from = { of, at };\n  if (!moves || STILL.matches \
|| playing && Number($('speed').value) < 300) { draw(); return; }\n  const before = boxesOf(parts), items = itemsOf(pa\
rts), all = selector => parts.flatMap(part => [...part.querySelectorAll(selector)]);\n  keepItems(items);\n  draw();\
\n  if (!before.size) return;\n  // A row with room for its nodes shows them also while they are outside of it, and s\
o has no scroll bar in motion.\n  const roomy = all('.strip, .list').filter(row => row.scrollWidth <= row.clientWidth \
&& row.scrollHeight <= row.clientHeight);\n  const moved = all('[data-key]').map(element => [element, before.get(sideO\
f(element) + element.dataset.key), element.getBoundingClientRect()]);\n  for (const row of roomy) row.classList.add('r\
oomy');\n  const done = moved.map(([element, was, is]) => {\n    if (!was) return element.animate([{ opacity: 0 }, { o\
pacity: 1 }], 240).finished;\n    const x = was.left - is.left, y = was.top - is.top;\n    return Math.abs(x) + Math.a\
bs(y) <= 1 ? null\n      : element.animate([{ transform: 'translate(' + x + 'px,' + y + 'px)' }, { transform: 'none' }\
], { duration: 260, easing: 'ease-out' }).finished;\n  });\n  if (is_forwards) for (const element of all('[data-item]'\
)) if (!items.has(sideOf(element) + element.dataset.item)) travels(element);\n  keepItems(itemsOf(parts));\n  Promise.\
allSettled(done).then(() => { for (const row of roomy) row.classList.remove('roomy'); });\n}\n\n\
// ---- Pictures of a chain and of the list, by the texts of Telling.\n\n\
const DOWN = '<svg viewBox=\"0 0 14 14\" aria-hidden=\"true\"><path d=\"M7 0V9\"/><path class=\"tip-of-link\" d=\"M2 7\
L7 14L12 7z\"/></svg>';\nconst ACROSS = '<svg viewBox=\"0 0 38 14\" aria-hidden=\"true\"><path class=\"link\" d=\"M0 7\
H30\"/><path class=\"tip-of-link\" d=\"M28 2L38 7L28 12z\"/></svg>';\nconst GAP = '<svg viewBox=\"0 0 38 14\" aria-hid\
den=\"true\"><path class=\"link\" d=\"M0 7H36\"/></svg>';\n\n\
const tokenText = (name, says) => '<b class=\"token\" data-key=\"token ' + name + '\">' + name + '</b>' + says;\ncons\
t endText = (end, of) => end.of ? '<span class=\"end ' + end.kind + '\">' + tokenText(end.of, end.text.slice(end.of.le\
ngth)) + '</span>'\n  : '<span class=\"end ' + end.kind + (end.touch ? ' touch' : '') + '\" data-key=\"' + of + ' ' + \
end.text + '\">' + end.text + (end.kind === 'note' ? '' : DOWN) + '</span>';\n// The passes that stand at a node, one \
above the other.\nfunction endsText(ends, of) {\n  let html = '', is_open = false;\n  for (const end of ends) {\n    i\
f (!!end.of !== is_open) { html += is_open ? '</span>' : '<span class=\"standing\">'; is_open = !is_open; }\n    html \
+= endText(end, of);\n  }\n  return html + (is_open ? '</span>' : '');\n}\n// Which item a line has: an item comes int\
o the list from a request, and out of it into an answer.\nconst CAME_FROM = { item: 'asked', got: 'item' };\nconst ite\
mOf = (box, k) => (box.items || []).filter(([line]) => line === k).map(([, at, tag]) => ' data-item=\"' + at + ' ' + t\
ag + '\" data-from=\"'\n  + (CAME_FROM[at.split(' ')[0]] || '') + ' ' + tag + '\"').join('');\nconst arrowText = ({ ki\
nd, text }) => '<span class=\"arrow ' + kind + '\">' + (kind === 'none' ? GAP : text === 'null' ? '' : ACROSS) + text \
+ '</span>';\nconst boxText = (box, of, kind = '') => '<li' + kind + '>' + (box.more ? '<span class=\"arrow\">' + box.\
more + ' more' + ACROSS + '</span>' : '')\n  + '<span class=\"stack\"><span class=\"ends\">' + endsText(box.ends, of) \
+ '</span><span class=\"box ' + box.role + (box.touch ? ' touch' : '') + (box.differs ? ' differs' : '') + '\"' + (box\
.differs ? ' title=\"the other queue has something else here\"' : '') + ' data-key=\"' + box.key + '\">'\n  + box.line\
s.map((line, k) => k === 0 ? '<b>' + line + '</b>' : '<span class=\"line' + (k > 1 ? ' dim' : '') + '\"' + itemOf(box\
, k) + '>' + line + '</span>').join('')\n    + '</span></span>' + (box.arrow ? arrowText(box.arrow) : '') + '</li>';\n\
const stripText = (boxes, name, loose = '') => '<div class=\"strip\" tabindex=\"0\" role=\"group\" aria-label=\"' + na\
me + '\"><ol class=\"boxes' + loose\n  + (boxes.length > 8 ? ' many' : '') + '\">' + boxes.join('') + '</ol></div>';\n\
\n\
const HEAD = /^<p class=\"head\">.*?<\\/p>/;\n// A chain: the nodes that are marked done, and apart from them those th\
at wait, and the node in the tail.\nfunction chainText(told, with_spare) {\n  const boxes = told.done.map(box => boxTe\
xt({ ...box, ends: [...box.ends, { kind: 'note', text: 'marked done' }] }, box.key, ' class=\"done-one\"')).concat(\
\n    told.boxes.map((box, k) => boxText(box, told.name, k === 0 && told.done.length ? ' class=\"apart\"' : '')));\n  \
return '<p class=\"head\">' + told.head.map(marked).join(' ') + '</p><div class=\"nodes\">' + stripText(boxes, 'nodes \
of the ' + told.name)\n    + (with_spare && told.spare.length ? '<div class=\"words\"><span class=\"dim\">in no chain:\
</span>'\n      + told.spare.map(one => '<span class=\"word' + (one.touch ? ' touch' : '') + '\" data-key=\"' + one.ke\
y + '\">' + tokenText(one.of, one.text.slice(one.of.length)) + '</span>').join('')\n      + (told.more_spare ? '<span \
class=\"dim\">and ' + told.more_spare + ' more</span>' : '') + '</div>' : '') + '</div>';\n}\n\n\
function listText(told, with_words) {\n  const more = told.more ? ['<li class=\"dim\">and ' + told.more + ' more</li>'\
] : [];\n  return (with_words ? '<div class=\"words\">'\n    + told.words.map(word => '<span class=\"word' + (word.tou\
ch ? ' touch' : '') + '\">' + word.name + ' <b>' + word.text + '</b></span>').join('') + '</div>'\n    : '')\n    + '<\
div class=\"parts\">' + told.rows.map(boxes => stripText(boxes.map(box => box.lines ? boxText(box, 'list') : '<li><spa\
n class=\"arrow\">' + box.more\n      + ' more' + ACROSS + '</span></li>'), 'nodes of the list')).join('')\n    + (tol\
d.outside ? '<div class=\"outside\"><h3>' + plural(told.outside, 'node') + ' outside the list</h3>'\n      + stripText\
([...told.free.map(box => boxText(box, 'list')), ...more], 'nodes outside the list', ' loose') + '</div>' : '') + '</d\
iv>';\n}\n\n\
// Scrolls the row of boxes that has the touched one to it.\nfunction showTouched(part) {\n  const box = part.querySel\
ector('.strip .box.touch');\n  const strip = box && box.closest('.strip');\n  if (!strip || strip.scrollWidth <= strip\
.clientWidth) return;\n  const at = box.getBoundingClientRect(), of = strip.getBoundingClientRect();\n  if (at.left < \
of.left || at.right > of.right) strip.scrollLeft += at.left - of.left - of.width / 3;\n}\n\n\
// The two runs of the side: the one that is driven, and the one beside it.\nlet pair = null;\n\n\
// The chains whose cards come first: the senders', and that of the group that moved last. The cards of other groups f\
ollow below the\n// passes, and those of the other queue each below the first.\nfunction drawSide(shown, prefix) {\n  \
const against = (told, tell) => pair ? Telling.markDifferences(told, tell(prefix ? run : pair.run)) : told;\n  let new\
est = shown.now;\n  while (newest > 0 && shown.events[newest - 1].x < 0) newest--;\n  const first = newest ? shown.eve\
nts[newest - 1].x : 0;\n  for (let x = -1; x < groups; x++) {\n    const told = against(Telling.chain(shown, x), one =\
> Telling.chain(one, x)), id = prefix + 'chain' + x, card = $(id).parentElement;\n    const place = $(x < 0 || x === f\
irst || prefix ? prefix + 'chains' : 'more-chains');\n    if (card.parentElement !== place) place.append(card);\n    c\
ard.style.order = x < 0 ? 0 : x === first ? 1 : 2;\n    card.classList.toggle('idle', !(pair ? told.is_busy || x === (\
shown.now ? shown.events[shown.now - 1].x : -1) : told.is_used));\n    // a card is as wide as what is in it asks for\
\n    card.style.flexGrow = told.is_used ? [...told.boxes, ...told.done].reduce((sum, box) => sum + 6 + Math.max(...bo\
x.lines.map(line => line.length)), told.spare.length ? 20 : 0) : '';\n    if (show(id, chainText(told, true))) showTou\
ched($(id));\n  }\n  if (show(prefix + 'list', listText(against(Telling.list(shown), Telling.list), true))) showTouche\
d($(prefix + 'list'));\n}\n\n\
function drawSides() {\n  if (pair && pair.events !== run.events) openPair();\n  if (pair) pair.follow();\n  moving([$\
('sides'), $('live')], run, run.now, () => {\n    drawLive();\n    drawSide(run, '');\n    $('other').hidden = !pair;\
\n    $('stage').classList.toggle('pair', !!pair);\n    $('parting').hidden = $('side-title').hidden = !pair;\n    $('\
side-title').textContent = pair ? tableName(run.variant) : '';\n    show('side-event', pair ? sentenceOf(run) : '');\
\n    if (!pair) return;\n    $('other-title').textContent = tableName(pair.run.variant);\n    drawSide(pair.run, 'oth\
er-');\n    show('other-event', sentenceOf(pair.run));\n    show('parting', marked(Telling.parting(pair)) + (pair.part\
s < 0 ? '' : ' <button data-event=\"' + (pair.parts + 1) + '\">to event ' + (pair.parts + 1) + '</button>'));\n  });\n\
}\n\n\
// The run beside the text at the head of the page: the chains and the list, without their words.\nfunction drawLive(\
) {\n  if (!$('live').getClientRects().length) return;\n  const chains = [0, -1].map(x => Telling.chain(run, x));\n  s\
how('live-picture', chains.map(told => '<h3>The ' + told.name + '</h3>' + chainText(told, true).replace(HEAD, '')).joi\
n('') + '<h3>The list</h3>' + listText(Telling.list(run), false));\n  show('live-event', run.now > 0 ? sentenceOf(run\
) : 'Press <b>play</b>: three senders send, and a receiver takes.');\n}\n\n\
const sentenceOf = shown => Telling.event(shown).map(marked).join(' ');\nconst tableName = variant => variant ? 'The b\
roken queue' : 'The right queue';\n\n\
function openPair() {\n  pair = Machine.beside(run, run.variant ? '' : source.lesson ? source.lesson.table : '');\n  f\
or (const key of Object.keys(drawn)) if (key.startsWith('other-')) delete drawn[key];\n}\nconst canPair = () => !!run.\
variant || !!(source.lesson && source.lesson.table);\n\n\
// ---- The program.\n\n\
// A part of the program, by the table of this name, with the line that is told of.\nfunction partText(variant, part, \
told) {\n  const [title, lines] = Telling.PROGRAM[part], broken = (Telling.BROKEN_LINES[variant] || {})[part] || {};\
\n  return '<div class=\"part\"><h3>' + title + '</h3><ol class=\"program\">' + lines.map(([text, places], k) => {\
\n    const lit = told && told.part === part && told.k === k, changed = broken[k];\n    return '<li class=\"' + (lit \
? 'lit ' : '') + (changed ? 'changed' : '') + '\"' + (lit ? ' aria-current=\"step\"' : '')\n      + (changed ? ' title\
=\"this line is changed\"' : '') + '><span>' + (changed || text) + '</span><span>'\n      + places.map(place => Tellin\
g.WORDS_OF[place]).filter(word => word).join(' ') + '</span></li>';\n  }).join('') + '</ol></div>';\n}\n\n\
function drawProgram() {\n  const told = Telling.program(run), e = run.now > 0 ? run.events[run.now - 1] : null;\n  co\
nst service = e && e.x >= 0 ? ['take'] : e && e.serves && e.serves.close ? ['close'] : e ? ['send'] : ['send', 'take']\
;\n  const html = ['call', 'combine', ...service].map(part => partText(run.variant, part, told)).join('');\n  if (show\
('program', html) && told) {\n    const line = $('program').querySelector('.lit'), card = $('code');\n    if (card.scr\
ollHeight > card.clientHeight) {\n      const top = line.getBoundingClientRect().top - card.getBoundingClientRect().to\
p + card.scrollTop;\n      const head = $('code-head').offsetHeight;\n      if (top < card.scrollTop + head || top + 4\
0 > card.scrollTop + card.clientHeight) card.scrollTop = top - (card.clientHeight + head) / 2;\n    }\n  }\n  show('ho\
lds', told ? '<p>' + told.holds.replace(/^[^:]*:/, '<b>$&</b>') + '</p>'\n    : '<p class=\"dim\">Each line is lit whe\
n a step does it, with what holds at that moment. At the end of a line are its steps, as the lanes have them.</p>');\n\
}\n\n\
// ---- The columns of the lanes, and the turns: of the run as it stands, to its last event.\n\n\
let laid = null;\nconst layOut = () => (laid = Telling.layOut(run.events, laid));\n\n\
// The index of the last element that isn't above, or -1.\nfunction lastUpTo(list, is_above) {\n  let lo = 0, hi = lis\
t.length;\n  while (lo < hi) {\n    const mid = (lo + hi) >> 1;\n    if (is_above(list[mid])) hi = mid; else lo = mid \
+ 1;\n  }\n  return lo - 1;\n}\n\n\
const LANE = 36, TURN = 24;\nlet shown_rows = [], drawn_at = -1;\n\n\
// What is read of the layout: once, and if it has changed. A read in each step would lay the page out again and again\
.\nconst sizes = {};\nfunction measure() {\n  const before = JSON.stringify(sizes);\n  Object.assign(sizes, { narrow: \
window.innerWidth <= 640, turns: $('turns').clientWidth, names: $('names').offsetWidth, cells: $('cells').clientWidth\
, lanes: $('lanes').clientHeight });\n  const is_sticky = getComputedStyle($('player')).position === 'sticky';\n  docu\
ment.documentElement.style.setProperty('--bar', (is_sticky ? $('player').offsetHeight : 0) + 'px');\n  return JSON.str\
ingify(sizes) !== before;\n}\n\n\
function rowsShown() {\n  const all = [...Array(rows).keys()];\n  if ($('all').checked || rows <= 24) return all;\n  c\
onst acting = [...layOut().acting].sort((a, b) => a - b);\n  return acting.length ? acting : all.slice(0, 24);\n}\n\n\
// The passes, each with the button that makes its next step, one for its steps until it returns or waits, and one tha\
t adds a call.\nfunction drawNames() {\n  const wanted = rowsShown();\n  if (wanted.join() !== shown_rows.join() || !$\
('names').firstChild) {\n    shown_rows = wanted;\n    $('names').innerHTML = wanted.map(row => '<div class=\"pass\" d\
ata-row=\"' + row + '\"><button class=\"step\" data-row=\"' + row + '\"><i class=\"dot\"></i><b>' + passName(row)\
\n      + '</b> <span></span><i class=\"next\"></i></button><button class=\"leap\" data-row=\"' + row\n        + '\" t\
itle=\"its steps until its call returns or it waits\" aria-label=\"' + passName(row) + ' until its call returns or it \
waits\">&#187;</button>'\n      + '<button class=\"more\" data-row=\"' + row + '\" title=\"a further call of ' + passN\
ame(row) + '\" aria-label=\"a further call of ' + passName(row) + '\">+</button></div>').join('');\n  }\n  const move\
d = run.now > 0 ? run.events[run.now - 1].row : -1;\n  [...$('names').children].forEach((line, k) => {\n    const row \
= shown_rows[k], status = Telling.pass(run, row), [button, leap, more] = line.children;\n    const next = shown_rows.l\
ength <= 64 ? run.nextEvent(row) : null;\n    const word = next ? KINDS[number[next.kind]][2] : '';\n    const key = s\
tatus.role + status.text + word + (row === moved);\n    if (line.dataset.key === key) return;\n    line.dataset.key = \
key;\n    line.className = row === moved ? 'pass moved' : 'pass';\n    button.title = next ? passName(row) + ' ' + sta\
tus.text + '. Its next step: ' + next.kind + ', ' + KINDS[number[next.kind]][4] : passName(row) + ' ' + status.text;\
\n    button.children[0].style.background = 'var(--' + status.role + ')';\n    button.children[2].textContent = status\
.text;\n    button.children[3].textContent = word;\n    leap.hidden = !next && shown_rows.length <= 64;\n    more.hidd\
en = !leap.hidden || !!source.exercise;\n  });\n}\n\n\
// What the lanes show: the columns from `lo` up to `hi`, the one of the newest event, and the lane of each row.\nfunc\
tion viewOfLanes() {\n  const { column, first } = layOut();\n  const cell = sizes.narrow ? 29 : 56;\n  const width = M\
ath.max(sizes.cells, 4 * cell);\n  const fits = Math.floor(width / cell);\n  const here = run.now > 0 ? column[run.no\
w - 1] : 0;\n  const lo = Math.max(0, Math.min(here + 1 - Math.ceil(fits * 0.7), first.length - fits));\n  return { ce\
ll, width, here, lo, hi: Math.min(first.length, lo + fits), height: shown_rows.length * LANE + 16, laneOf: new Map(sho\
wn_rows.map((row, k) => [row, k])) };\n}\n\n\
// The turns of each chain over the columns of the lanes: the combiner's name, and the passes whose requests it served\
. What is\n// still to come of a turn is outlined.\nfunction drawTurns(view) {\n  const { turns, column } = layOut();\
\n  const left = sizes.names, width = left + view.width;\n  const at = c => left + (Math.max(view.lo, Math.min(c, view\
.lo + Math.floor(view.width / view.cell))) - view.lo) * view.cell;\n  const nameOf = call => call ? passName(call.row\
) : 'no call';\n  let s = '<svg width=\"' + width + '\" height=\"' + (groups + 1) * TURN + '\" role=\"img\" aria-label\
=\"the turns of the combiners, over the events of the lanes\">';\n  for (let x = -1; x < groups; x++) s += '<text clas\
s=\"side\" x=\"2\" y=\"' + ((x + 1) * TURN + 16) + '\">'\n    + (sizes.narrow ? (x < 0 ? 'sends' : groups > 1 ? 'take\
s ' + (x + 1) : 'takes') : 'turns in the ' + chainName(run, x)) + '</text>';\n  for (let k = lastUpTo(turns, turn => c\
olumn[turn.from] >= view.hi); k >= 0; k--) {\n    const turn = turns[k];\n    if (column[turn.to] < view.lo) {\n      \
if (turns.length - k > 2000) break;\n      continue;\n    }\n    const from = at(column[turn.from]), to = at(column[tu\
rn.to] + 1), y = (turn.x + 1) * TURN + 2;\n    // the bar is solid up to the newest event, and to the end of its colum\
n\n    const done = turn.from >= run.now ? from : turn.to < run.now ? to : Math.max(from, Math.min(to, at(view.here + \
1)));\n    const names = turn.served.filter(([i]) => i < run.now).map(([, call]) => nameOf(call));\n    const whole = \
passName(turn.row) + (names.length ? ' for ' + names.join(', ') : '');\n    const room = Math.floor((to - from - 8) / \
6.6);\n    const text = whole.length <= room ? whole : room >= 12 ? whole.slice(0, room - 1) + '\\u2026' : room >= pas\
sName(turn.row).length ? passName(turn.row) : '';\n    const bar = (a, b, kind) => b - a < 1 ? '' : '<rect' + kind + \
' x=\"' + (a + 0.5).toFixed(1) + '\" y=\"' + (y + 0.5) + '\" width=\"' + (b - a - 2).toFixed(1) + '\" height=\"19\" rx\
=\"3\"/>';\n    s += '<g class=\"turn\" data-event=\"' + (turn.from + 1) + '\"><title>' + Telling.turnTitle(run, turn\
) + '</title>' + bar(from, done, '') + bar(done, to, ' class=\"later\"')\n      + '<text x=\"' + (from + 5).toFixed(1\
) + '\" y=\"' + (y + 14.5) + '\">' + text + '</text></g>';\n  }\n  if (run.now > 0) s += '<line class=\"now\" x1=\"' \
+ (at(view.here + 1) - 1) + '\" x2=\"' + (at(view.here + 1) - 1) + '\" y1=\"0\" y2=\"' + (groups + 1) * TURN + '\"/>';\
\n  show('turns', s + '</svg>');\n}\n\n\
// A cell over some columns, which begins with event i: outlined if that is still to come, and framed if it has the ne\
west event.\nfunction cellText(view, i, c, wide, high, text, title, role, is_now) {\n  const x = (c - view.lo) * view.\
cell, y = view.laneOf.get(run.events[i].row) * LANE + 1, later = i >= run.now;\n  const frame = '<rect class=\"now\" x\
=\"' + Math.max(x - 0.5, 1) + '\" y=\"' + (y - 0.5) + '\" width=\"' + (wide * view.cell - 1) + '\" height=\"' + (high \
+ 2) + '\" rx=\"5\"/>';\n  return '<g class=\"cell' + (later ? ' later' : '') + '\" data-event=\"' + (i + 1) + '\"><ti\
tle>' + title + '</title><rect x=\"' + (x + 0.5) + '\" y=\"' + (y + 0.5) + '\" width=\"' + (wide * view.cell - 3)\
\n    + '\" height=\"' + high + '\" rx=\"4\" fill=\"' + (later ? 'none' : 'var(--' + role + ')') + '\" stroke=\"var(--\
' + role + ')\"/><text class=\"code\" x=\"'\n      + (x + Math.min(wide, 3) * view.cell / 2 - 1) + '\" y=\"'\n    + (\
y + high / 2 + 5) + '\">' + text + '</text></g>' + (is_now ? frame : '');\n}\n\n\
function waitText(view, one) {\n  const from = Math.max(one.from, view.lo), wide = Math.min(one.to, view.hi - 1) - fro\
m + 1;\n  const times = one.reads + '\\u00d7', word = sizes.narrow ? 'St' : 'waits';\n  const text = one.reads === 1 \
? word : wide > 1 ? word + ' ' + times : times;\n  const title = Telling.waitText(run, one);\n  const newest = run.no\
w > 0 && run.events[run.now - 1];\n  const is_now = newest && newest.waits && newest.row === one.row && one.event < ru\
n.now && view.here >= one.from && view.here <= one.to;\n  return cellText(view, one.event, from, wide, 22, text, title\
, 'wait', is_now);\n}\n\n\
// The event of a column, if it isn't a wait; the bar of a pass whose request it serves; and the event's number.\nfunc\
tion columnText(view, c) {\n  const i = layOut().first[c], e = run.events[i], x = (c - view.lo) * view.cell, kind = KI\
NDS[number[e.kind]];\n  let s = view.laneOf.has(e.row) && !e.waits ? cellText(view, i, c, 1, 28, kind[sizes.narrow ? \
1 : 2], (i + 1) + ': ' + passName(e.row) + ' ' + e.kind, kind[3], i === run.now - 1) : '';\n  if (e.serves && e.serves\
.row !== e.row && view.laneOf.has(e.serves.row)) {\n    s += '<rect x=\"' + x + '\" y=\"' + (view.laneOf.get(e.serves.\
row) * LANE + 28) + '\" width=\"' + (view.cell - 2) + '\" height=\"4\" rx=\"2\" fill=\"var(--serve)\"'\n      + (i >= \
run.now ? ' opacity=\".45\"' : '') + '/>';\n  }\n  return s + ((i + 1) % 5 === 0 ? '<text class=\"tick\" x=\"' + x + '\
\" y=\"' + (view.height - 3) + '\">' + (i + 1) + '</text>' : '');\n}\n\n\
function drawCells(view) {\n  const { first, waits } = layOut();\n  const { lo, hi } = view;\n  const end = hi < first\
.length ? first[hi] : run.events.length;\n  let s = '<svg width=\"' + view.width + '\" height=\"' + view.height + '\" \
role=\"img\" aria-label=\"' + plural(shown_rows.length, 'lane') + ', events ' + ((first[lo] ?? 0) + 1) + ' to ' + end \
+ '\">';\n  shown_rows.forEach((row, k) => { s += '<line class=\"lane\" x1=\"0\" x2=\"' + view.width + '\" y1=\"' + (\
k * LANE + LANE - 0.5) + '\" y2=\"' + (k * LANE + LANE - 0.5) + '\"/>'; });\n  for (const row of shown_rows) {\n    co\
nst mine = waits.get(row) || [];\n    for (let k = Math.max(0, lastUpTo(mine, one => one.from > lo)); k < mine.length \
&& mine[k].from < hi; k++) if (mine[k].to >= lo) s += waitText(view, mine[k]);\n  }\n  for (let c = lo; c < hi; c++) \
s += columnText(view, c);\n  show('cells', s + '</svg>');\n  followLane(view);\n}\n\n\
// Scrolls the lanes to that of the newest event, and the page if the player or the screen's end hides that lane.\nfun\
ction followLane({ height, laneOf }) {\n  const row = run.now > 0 && drawn_at !== run.now ? run.events[run.now - 1].ro\
w : -1;\n  drawn_at = run.now;\n  if (!laneOf.has(row)) return;\n  const y = laneOf.get(row) * LANE;\n  if (height > s\
izes.lanes) {\n    const top = $('lanes').scrollTop;\n    if (y < top || y + LANE > top + sizes.lanes) $('lanes').scro\
llTop = Math.max(0, y - sizes.lanes / 2);\n  }\n}\n\n\
// Scrolls the page a little if the lanes are on the screen and the player or the screen's end hides that of the newes\
t event.\nfunction keepLaneInView() {\n  const lane = $('names').querySelector('.pass.moved');\n  if (!lane) return;\
\n  const card = $('passes').getBoundingClientRect(), at = lane.getBoundingClientRect(), bar = $('player').getBounding\
ClientRect().bottom;\n  if (card.bottom < bar || card.top > window.innerHeight) return;\n  if (at.top < bar + 4) windo\
w.scrollBy(0, at.top - bar - 40);\n  else if (at.bottom > window.innerHeight - 4) window.scrollBy(0, at.bottom - windo\
w.innerHeight + 12);\n}\n\n\
// ---- The history, the orders and the texts.\n\n\
// The newest calls of each side, in a column that scrolls.\nconst HISTORY_LINES = 40;\nfunction drawHistory() {\n  co\
nst { history } = run, e = run.now > 0 ? run.events[run.now - 1] : null;\n  const fresh = x => !e || e.x !== x - 1 ? -\
1 : e.enters ? history[x].calls.length - 1 : e.decides ? history[x].answers.length - 1 : -1;\n  const key = history.ma\
p((s, x) => s.calls.length + ' ' + s.answers.length + ' ' + fresh(x)).join() + ' ' + run.chosen + ' ' + run.version;\
\n  if (key === drawn.history) return;\n  drawn.history = key;\n  $('history').innerHTML = history.map((s, x) => {\
\n    const from = Math.max(0, Math.min(s.answers.length - HISTORY_LINES / 2, s.calls.length - HISTORY_LINES));\n    c\
onst head = '<h3>' + (x === 0 ? 'sends and closes' : groups > 1 ? 'takes of group ' + x : 'takes') + (from ? ' from ' \
+ from + ' on' : '') + '</h3>';\n    if (!s.calls.length) return '<div>' + head + '<p class=\"dim\">none</p></div>';\
\n    return '<div>' + head + '<div class=\"list\"><table class=\"mono\">' + s.calls.slice(from, from + HISTORY_LINES)\
.map((call, d) => {\n      const k = from + d, a = s.answers[k];\n      return '<tr' + (fresh(x) === k ? ' class=\"tou\
ch\"' : '') + '><td>' + run.front(x) + k + '</td><td>' + passName(call.row) + ' ' + callText(call)\n        + '</td><t\
d' + (a ? '' : ' class=\"pending\"') + '>' + Machine.answerText(a) + '</td></tr>';\n    }).join('') + '</table></div><\
/div>';\n  }).join('');\n  for (const list of $('history').querySelectorAll('.list')) {\n    const line = list.querySe\
lector('tr.touch');\n    list.scrollTop = line ? line.offsetTop - list.clientHeight / 2 : list.scrollHeight;\n  }\n}\n\
\n\
// An order of all calls that are decided, by the events at which they take effect.\nfunction drawOrder() {\n  if (!$(\
'order').open) return;\n  const { said, rows: lines } = Telling.order(run), from = Math.max(0, lines.length - HISTORY_\
LINES);\n  show('order-text', '<p>Each call takes effect at one event between its swap and its decision: where it is d\
ecided, and a Full at the load of the cursor, with which its scan begins. '\n    + marked(said) + '</p>'\n    + (lines\
.length ? '<div class=\"list\"><table class=\"mono\"><tr><th>order</th><th>takes effect</th><th>decided</th><th>call</\
th><th>answer</th></tr>'\n      + lines.slice(from).map((one, k) => '<tr' + (one.decided === run.now ? ' class=\"touch\
\"' : '') + '><td>' + (from + k + 1) + '</td><td>event ' + one.effect\n      + '</td><td>event ' + one.decided + '</td\
><td>' + one.call + '</td><td>' + one.answer + '</td></tr>').join('') + '</table></div>' : '<p class=\"dim\">No call i\
s decided yet.</p>'));\n}\n\n\
// The steps of a schedule in an address, as s1.6-r2.3, and back.\nconst stepsText = steps => steps.map(([name, count]\
) => name + '.' + count).join('-');\nconst stepsOf = text => text === '' ? [] : text.split('-').map(part => part.split\
('.')).map(([name, count]) => [name, Number(count)]);\n\n\
// The address of the run up to this event: of its lesson, of the exercise, of the program's text, or of a plan.\nfunc\
tion placeText() {\n  const table = run.variant ? '&table=' + run.variant : '';\n  if (lecture) return '#lecture=' + l\
ecture.lesson.id + '&screen=' + (lecture.at + 1);\n  if (source.exercise) return '#exercise=' + source.exercise.id + '\
&steps=' + stepsText(stepsBy()) + '&event=' + run.now;\n  if (source.lesson && run.chosen === 0) return '#lesson=' + s\
ource.lesson.id + (source.lesson.table && !run.variant ? '&table=right' : '') + '&event=' + run.now;\n  if (source.is_\
own && run.chosen === 0) return '#event=' + run.now;\n  return '#plan=' + encodeURIComponent(run.planText(run.events.l\
ength).replace(/\\s+/g, '')) + table + '&event=' + run.now;\n}\n\n\
let address = '';\nfunction drawTexts() {\n  if (!$('texts').open) return;\n  const plan = run.planText();\n  $('plan'\
).value = plan;\n  $('whole').textContent = run.reportText();\n  if (address) URL.revokeObjectURL(address);\n  addres\
s = URL.createObjectURL(new Blob([plan], { type: 'application/json' }));\n  $('save').href = address;\n  $('link').val\
ue = location.href.replace(/#.*/, '') + '#plan=' + encodeURIComponent(plan.replace(/\\s+/g, '')) + (run.variant ? '&ta\
ble=' + run.variant : '') + '&event=' + run.now;\n}\n\n\
function drawBranches() {\n  const wanted = run.branches.map((one, k) => (k === 0 ? 'the run of the plan' : 'branch ' \
+ k + ' from event ' + one.from) + ', ' + plural(one.events.length, 'event'));\n  const select = $('branches');\n  if \
([...select.options].map(option => option.text).join('|') !== wanted.join('|')) select.innerHTML = wanted.map((text, k\
) => '<option value=\"' + k + '\">' + text + '</option>').join('');\n  select.value = run.chosen;\n  $('slider').max \
= run.events.length;\n}\n\n\
// ---- The lesson or the exercise.\n\n\
// The title, the text and the moments of a lesson by the table of the run.\nconst part = () => Telling.lessonPart(sou\
rce.lesson, run.variant);\n\n\
// The moment that was reached last.\nfunction drawLesson() {\n  const moments = source.lesson ? part().moments : [];\
\n  $('moment').hidden = !moments.length;\n  if (!moments.length) { show('moments', ''); return; }\n  const at = run.c\
hosen === 0 ? lastUpTo(moments, ([event]) => event > run.now) : -1;\n  show('moments', moments.map(([event], k) => '<b\
utton data-event=\"' + event + '\" title=\"event ' + event + '\"'\n    + (k === at ? ' class=\"here\" aria-current=\"s\
tep\"' : '') + '>' + (k + 1) + '</button>').join(''));\n  show('moment-text', run.chosen > 0 ? 'This is your own branc\
h. The list of runs in the player leads back to the run of the plan.'\n    : at < 0 ? 'Moments of this run: press one \
of these buttons, or the key <b>m</b>.'\n      : (moments[at][0] === run.now ? '' : '<span class=\"dim\">At event ' + \
moments[at][0] + ':</span> ') + marked(moments[at][2]));\n}\n\n\
// The schedule that the reader made: the steps after those of the plan.\nconst stepsBy = () => Telling.stepsOf(run, s\
ource.from);\nfunction drawTask() {\n  const { exercise } = source;\n  $('task').hidden = !exercise;\n  if (!exercise\
) return;\n  const told = Telling.task(run, exercise, source.from), own = run.now - source.from;\n  show('task-why', t\
old.solved ? '<b>Why:</b> ' + marked(exercise.why) : '');\n  $('next-exercise').hidden = !told.solved || EXERCISES.ind\
exOf(exercise) === EXERCISES.length - 1;\n  show('task-state', (told.solved ? '<span class=\"good\">' : '<span>') + ma\
rked(told.text) + '</span>');\n  $('task-length').textContent = 'Your schedule has ' + plural(own, 'step') + '. A shor\
test solution has ' + exercise.solution.reduce((sum, [, count]) => sum + count, 0) + '.';\n}\n\n\
// The laws that a broken table breaks, and how the table was changed.\nfunction drawLaw() {\n  const variant = run.va\
riant || (source.lesson && source.lesson.table) || '';\n  $('law-card').hidden = !variant;\n  $('adversary').hidden = \
!run.variant || !!source.exercise;\n  if (!variant) { show('law', ''); return; }\n  const found = Telling.broken(run, \
run.events.length);\n  let html = !run.variant ? '<p class=\"good\">This is the right table, and no law is broken.</p>\
'\n    : found.length ? '<ul style=\"margin:4px 0;padding-left:0;list-style:none\">'\n      + found.map(one => '<li cl\
ass=\"row\"><button data-event=\"' + one.event + '\">event ' + one.event + '</button><span>breaks the law: <b>' + one.\
text\n      + '</b> <span class=\"dim\">(' + one.by + ')</span></span></li>').join('') + '</ul>'\n    : '<p>This run b\
reaks no law yet.</p>';\n  if (run.variant && run.chosen === 0 && source.lesson && source.lesson.lost) html += '<p><b>\
' + marked(source.lesson.lost) + '</b></p>';\n  html += '<details' + (law_open ? ' open' : '') + '><summary>The chang\
e of the table of steps</summary>'\n    + CHANGES[variant].map(change => '<code>' + change.in + '</code>' + (change.wa\
s ? '<del class=\"change mono\">' + escape(change.was) + '</del>' : '')\n    + '<ins class=\"change mono\">' + escape(\
change.is) + '</ins>').join('') + '</details>';\n  show('law', html);\n}\nlet law_open = false;\n\n\
function draw() {\n  if (lecture) { drawLecture(); return; }\n  const where = 'event ' + run.now + ' of ' + run.events\
.length;\n  drawBranches();\n  $('where').textContent = where;\n  $('slider').value = run.now;\n  $('slider').setAttri\
bute('aria-valuetext', where);\n  const kind = run.now > 0 ? ' <span class=\"dim\">(' + run.events[run.now - 1].kind \
+ ')</span>' : ' Press <b>next</b>, <b>play</b>, or a pass.';\n  show('event', sentenceOf(run) + kind);\n  const broke\
n = Telling.broken(run);\n  if (show('breaks', Telling.banner(broken))) measure();\n  drawNames();\n  drawSides();\n  \
const view = viewOfLanes();\n  drawTurns(view);\n  drawCells(view);\n  show('waits', Telling.waits(run).map(one => '<p\
>' + marked(one.text) + '</p>').join(''));\n  drawProgram();\n  drawHistory();\n  drawOrder();\n  drawTexts();\n  draw\
Lesson();\n  drawTask();\n  drawLaw();\n}\n\n\
// ---- The adversary: random schedules of a broken queue until one breaks a law, and then a shortest one.\n\n\
const SEARCH = { steps: 500, schedules: 20000, shorter: 500, states: 40000 };\nlet searches = 0;             // how ma\
ny were begun: one ends when another begins, or another run is opened\nasync function search() {\n  const mine = ++sea\
rches, { variant } = run, plan = run.planText(0), fresh = () => Machine.open(Machine.planOfText(plan), variant);\n  co\
nst tell = text => { $('search-state').textContent = text; };\n  // The end of a search, which has some milliseconds a\
t a time, so that the page answers meanwhile.\n  async function endOf(found, told) {\n    for (let stop = performance.\
now() + 25; ; stop = performance.now() + 25) {\n      while (performance.now() < stop) {\n        const { done, value \
} = found.next();\n        if (done) return value;\n        tell(told(value));\n      }\n      await new Promise(resol\
ve => setTimeout(resolve));\n      if (mine !== searches) throw new Error('another run was opened');\n    }\n  }\n  tr\
y {\n    let best = await endOf(Machine.broken(fresh, SEARCH.steps, SEARCH.schedules), tries => plural(tries, 'random \
schedule') + ' so far');\n    if (!best) { tell('None of ' + SEARCH.schedules + ' random schedules broke a law.'); ret\
urn; }\n    const first = best.now;\n    for (let next = best; next; next = await endOf(Machine.broken(fresh, best.no\
w - 1, SEARCH.shorter), tries => 'broken by ' + plural(best.now, 'step')\n      + '; tries shorter schedules at random\
: ' + tries)) best = next;\n    const path = await endOf(Machine.shortest(fresh(), e => e.breaks.length > 0, SEARCH.st\
ates), ({ steps, states }) => 'broken by ' + plural(best.now, 'step')\n      + '; looks at all schedules of ' + plural\
(steps, 'step') + ': ' + plural(states, 'state'));\n    if (path) { best = fresh(); for (const row of path) best.step(\
row); }\n    openPlan(best.planText(), best.now, variant, path ? 'A shortest schedule that breaks a law' : 'A random s\
chedule that breaks a law');\n    tell('The first random schedule that broke a law had ' + plural(first, 'step') + ', \
and this one has ' + best.now + ': '\n      + (path ? 'no schedule that breaks a law is shorter.' : 'the shortest tha\
t random tries found.'));\n    keepPlace();\n  } catch (stopped) { if (mine === searches) throw stopped; }\n}\n\n\
// ---- The handout: the exercises on paper.\n\n\
function openHandout() {\n  $('handout').innerHTML = '<h2>CC-Queue: exercises</h2><p>Open ' + (location.protocol === '\
file:' ? 'the page ______________________' : escape(location.href.replace(/#.*/, ''))) + ' in a browser, choose an exe\
rcise, and make the steps of each pass. Write down the schedule that you found, and why it does that.</p>'\n    + EXER\
CISES.map(({ title, text, plan, table, goal, id }, k) => '<article class=\"card\"><h3>' + (k + 1) + '. ' + title + '</\
h3><p>' + marked(text) + '</p><p class=\"dim\">Capacity '\n      + plan.capacity + ', bound ' + plan.bound + '; ' + (t\
able ? 'a broken queue' : 'the right queue') + '; the address ends with <code>#exercise=' + id + '</code></p>'\n      \
+ '<p class=\"answer\">Schedule:</p><p class=\"answer\">Why:</p></article>').join('')\n    + '<article class=\"card hi\
nts\"><h3>Hints</h3><ol>' + EXERCISES.map(({ hint }) => '<li>' + marked(hint) + '</li>').join('') + '</ol></article>';\
\n  document.body.classList.add('handout');\n  document.title = 'Exercises - CC-Queue';\n}\n\n\
// ---- The lecture: the screens of a lesson, each with a title, a sentence, the picture and the line of the program.\
\n\n\
let lecture = null;\nconst LECTURES = LESSONS.filter(lesson => lesson.moments.length);\n\n\
function openLecture(id, at) {\n  const lesson = LECTURES.find(one => one.id === id);\n  if (!lesson) return false;\
\n  play(false);\n  if (!lecture || lecture.lesson !== lesson) {\n    const opened = table => Machine.open(Machine.pla\
nOfText(JSON.stringify(lesson.plan)), table);\n    const first = opened(lesson.table || '');\n    lecture = { lesson, \
html: '', runs: { [lesson.table || '']: first, '': lesson.table ? opened('') : first }, pair: lesson.table ? Machine.b\
eside(first, '') : null };\n    lecture.screens = Telling.screens(lesson, lecture.pair);\n    $('lecture-sides').inner\
HTML = '';\n  }\n  lecture.at = Math.max(0, Math.min(at, lecture.screens.length - 1));\n  document.body.classList.add(\
'lecture');\n  $('lecture').hidden = false;\n  drawLecture();\n  keepPlace();\n  return true;\n}\n\n\
function drawLecture() {\n  const { lesson, screens, at, runs } = lecture, screen = screens[at], two = screen.kind ==\
= 'pair';\n  const shown = runs[screen.table];\n  shown.goTo(screen.event);\n  if (two) lecture.pair.follow();\n  cons\
t sides = two ? [shown, lecture.pair.run] : [shown];\n  const html = sides.map(one => {\n    const e = one.now > 0 ? o\
ne.events[one.now - 1] : one.events[0], told = Telling.chain(one, e.x);\n    return '<div class=\"side\">' + (two ? '<\
h2>' + tableName(one.variant) + '</h2>' : '') + '<div class=\"part part-chain\"><h3><b>The ' + told.name + '.</b> '\
\n      + told.head.map(marked).join(' ') + '</h3>' + stripOfLecture(told) + '</div><div class=\"part part-list\"><h3>\
<b>The list.</b></h3>'\n      + listText(Telling.list(one), false) + '</div></div>';\n  }).join('');\n  const is_new \
= !has_code && (lecture.html !== html || lecture.width !== window.innerWidth || lecture.height !== window.innerHeight)\
;\n  // What moves does so from where it was before anything of this screen is drawn.\n  const draw = () => {\n    hid\
eTip();\n    $('lecture-title').textContent = screen.title;\n    document.title = screen.title + ' - CC-Queue';\n    $\
('lecture-count').textContent = 'screen ' + (at + 1) + ' of ' + screens.length;\n    if ($('lecture-text').dataset.of \
!== lesson.id + at) { $('lecture-text').dataset.of = lesson.id + at; $('lecture-text').innerHTML = marked(screen.text)\
; }\n    $('lecture').classList.toggle('pair', two);\n    $('lecture-line').innerHTML = sides.map(one => Telling.progr\
am(one)).map(told => told ? '<p><span>' + told.title + '</span><code>' + escape(told.line.trim())\n      + '</code></p\
>' : '<span>No step yet.</span>').join('');\n    for (const id of ['lecture-sides', 'lecture-line']) $(id).hidden = ha\
s_code;\n    $('lecture-code').hidden = !has_code;\n    $('lecture-program').setAttribute('aria-pressed', has_code ? '\
true' : 'false');\n    const parts = sides.map(one => [one, Telling.program(one)]).map(([one, told]) => partText(one.v\
ariant, told ? told.part : 'call', told));\n    $('lecture-code').innerHTML = parts.join('');\n    $('lecture-code').s\
tyle.setProperty('--lines', Math.max(...parts.map(text => text.split('<li').length)));\n    if (is_new) { $('lecture-s\
ides').innerHTML = html; fitLecture(); }\n  };\n  if (is_new) moving([$('lecture-sides')], lesson, at, draw); else dra\
w();\n  Object.assign(lecture, { html: has_code ? '' : html, width: window.innerWidth, height: window.innerHeight });\
\n  for (const side of $('lecture-sides').children) showTouched(side);\n  // the Tab key stops at a row of nodes only \
where that scrolls\n  for (const strip of $('lecture-sides').querySelectorAll('.strip')) strip.tabIndex = strip.scroll\
Width > strip.clientWidth ? 0 : -1;\n  $('lecture-lesson').value = lesson.id;\n  $('lecture-back').disabled = at === \
0 && LECTURES[0] === lesson;\n  $('lecture-next').disabled = at === screens.length - 1 && LECTURES[LECTURES.length - 1\
] === lesson;\n}\nlet has_code = false;         // whether the lecture shows the program in place of the picture\nfunc\
tion toggleCode() {\n  has_code = !has_code;\n  drawLecture();\n}\nconst stripOfLecture = told => chainText(told, fals\
e).replace(HEAD, '');\n\n\
// Draws the chain and the list as large as they fit on the screen: first in width, and then in height, the list befor\
e the chain.\nconst LETTERS = [64, 54, 46, 39, 33, 29, 26, 23, 21, 19, 18, 17, 16, 15, 14, 13, 12.5];\nfunction fitLec\
ture() {\n  const largest = LETTERS.findIndex(size => size <= Math.max(26, window.innerWidth / 58));\n  const sides = \
$('lecture-sides'), root = document.documentElement, at = { chain: largest, list: largest };\n  const put = part => si\
des.style.setProperty('--of-' + part, LETTERS[at[part]] + 'px');\n  const isWide = part => [...sides.querySelectorAll(\
'.part-' + part + ' .strip')].some(strip => strip.scrollWidth > strip.clientWidth);\n  const isHigh = () => root.scrol\
lHeight > root.clientHeight;\n  const shrink = (part, is_large) => { for (put(part); is_large(part) && at[part] < LETT\
ERS.length - 1; put(part)) at[part]++; };\n  put('chain');\n  put('list');\n  shrink('chain', isWide);\n  shrink('list\
', isWide);\n  while (isHigh() && at.list < LETTERS.length - 1 && at.list < at.chain + 4) { at.list++; put('list'); }\
\n  shrink('chain', isHigh);\n  shrink('list', isHigh);\n}\n\n\
// The next screen, or the one before: at the end of a lesson the next lesson follows.\nfunction toScreen(step) {\n  c\
onst { lesson, at, screens } = lecture, next = LECTURES[LECTURES.indexOf(lesson) + step];\n  if (at + step >= 0 && at \
+ step < screens.length) openLecture(lesson.id, at + step);\n  else if (next) openLecture(next.id, step > 0 ? 0 : Infi\
nity);\n}\n\n\
// Leaves the lecture, to the event of its screen.\nfunction leaveLecture() {\n  const { lesson, screens, at } = lectu\
re, screen = screens[at];\n  lecture = null;\n  document.body.classList.remove('lecture', 'blank');\n  $('lecture').hi\
dden = true;\n  if (document.fullscreenElement) document.exitFullscreen();\n  openLesson(lesson.id, screen.event, less\
on.table && !screen.table ? 'right' : undefined);\n  keepPlace();\n  toStage();\n}\n\n\
// The lecture on what is shown: at the moment that was reached last.\nfunction toLecture() {\n  const { lesson } = so\
urce;\n  if (!lesson || !lesson.moments.length) { openLecture('lone', 0); return; }\n  const screens = Telling.screens\
(lesson, canPair() ? Machine.beside(Machine.open(Machine.planOfText(JSON.stringify(lesson.plan)), lesson.table), '') \
: null);\n  let at = 0;\n  screens.forEach((screen, k) => { if (screen.kind === 'moment' && screen.table === run.varia\
nt && screen.event <= run.now) at = k; });\n  openLecture(lesson.id, at);\n}\n\n\
function fullScreen() {\n  if (document.fullscreenElement) document.exitFullscreen();\n  else if (document.documentEle\
ment.requestFullscreen) document.documentElement.requestFullscreen().catch(() => {});\n}\n\n\
// ---- Moves.\n\n\
function goTo(n) {\n  run.goTo(n);\n  say('');\n  draw();\n  keepPlace();\n  keepLaneInView();\n}\n\n\
function say(text) {\n  $('hint').textContent = text;\n  $('hint').hidden = text === '';\n}\n\n\
// the place in the address, a moment after the last step, if it isn't too long\nlet place_timer = 0;\nfunction keepPl\
ace() {\n  clearTimeout(place_timer);\n  place_timer = setTimeout(() => {\n    let place = placeText();\n    if (place\
.length > 8000) place = '#event=' + run.now;\n    try { window.history.replaceState(null, '', place); } catch (e) { /\
* an address that can't be changed */ }\n  }, 200);\n}\n\n\
function nextDecision(from, step) {\n  for (let i = from + step; i > 0 && i <= run.events.length; i += step) if (run.e\
vents[i - 1].decides) return i;\n  return step > 0 ? run.events.length : 0;\n}\n\n\
// Plays event by event; at the end it begins again.\nlet playing = 0;\nfunction play(on) {\n  clearInterval(playing);\
\n  if (on && run.now === run.events.length) goTo(0);\n  playing = on ? setInterval(() => { if (run.now === run.events\
.length) play(false); else goTo(run.now + 1); }, Number($('speed').value)) : 0;\n  for (const id of ['play', 'live-pla\
y']) {\n    $(id).textContent = on ? 'stop' : 'play';\n    $(id).setAttribute('aria-pressed', on ? 'true' : 'false');\
\n  }\n  // a fast play isn't read out event by event\n  $('event').setAttribute('aria-live', on && Number($('speed').\
value) < 1000 ? 'off' : 'polite');\n}\n\n\
// Stops the play, and goes to an event.\nfunction seek(n) {\n  play(false);\n  goTo(n);\n}\n\n\
// One step of a pass, or its steps until its call returns or it waits.\nfunction stepOf(row, leaps) {\n  play(false);\
\n  let done = run.step(row);\n  for (let k = 1; leaps && done && k < 1000; k++) {\n    const e = run.events[run.now \
- 1];\n    if (e.answer || e.waits || !run.step(row)) break;\n  }\n  say(done ? '' : run.now >= EVENT_LIMIT ? 'A run o\
n a page has at most ' + EVENT_LIMIT + ' events.' : passName(row) + ' has no call left' + (source.exercise ? '.' : ': \
add one.'));\n  draw();\n  if (!done) choosePass(row);\n  else {\n    keepPlace();\n    keepLaneInView();\n  }\n}\n\n\
function choosePass(row) {\n  $('caller').value = row;\n  $('add-send').disabled = $('add-close').disabled = $('body')\
.disabled = row >= senders;\n  $('add-take').disabled = row < senders;\n}\n\n\
function addCall(row, words) {\n  const wrong = run.add(row, words);\n  if (pair) openPair();\n  draw();\n  say(wrong)\
;\n}\n\n\
// ---- Opening a run.\n\n\
function cardsOf(prefix) {\n  $(prefix + 'chains').innerHTML = $('more-chains').innerHTML = '';\n  for (let x = -1; x \
< groups; x++) {\n    const card = document.createElement('section');\n    card.className = 'card chain';\n    card.in\
nerHTML = '<h2>The ' + chainName(run, x) + '</h2><div id=\"' + prefix + 'chain' + x + '\"></div>';\n    $(prefix + 'ch\
ains').appendChild(card);\n  }\n}\n\n\
// Shows a run from an event on. `from` says what it is of: a lesson, an exercise, the program's text, or a plan.\nfun\
ction openRun(opened, from, event) {\n  searches++;\n  $('search-state').textContent = '';\n  play(false);\n  hideTip(\
);\n  use(opened);\n  source = from;\n  drawn = {};\n  shown_rows = [];\n  drawn_at = -1;\n  laid = null;\n  pair = nu\
ll;\n  cardsOf('');\n  cardsOf('other-');\n  $('caller').innerHTML = [...Array(rows).keys()].map(row => '<option value\
=\"' + row + '\">' + passName(row) + '</option>').join('');\n  $('all-label').hidden = rows <= 24;\n  $('add').hidden \
= true;\n  choosePass(0);\n  const { lesson, exercise } = from, { title, text } = lesson ? part() : exercise || { titl\
e: from.title, text: '' };\n  document.body.classList.toggle('begins', !!from.is_own);\n  $('lesson-title').textConten\
t = lesson ? (lesson.kind === 'tour' ? 'Stop ' + (TOUR.indexOf(lesson) + 1) + ' of ' + TOUR.length + ': ' : '') + titl\
e\n    : (exercise ? 'Exercise: ' : '') + title;\n  document.title = (from.is_own && !from.is_site ? Telling.titleOf(r\
un) : title) + ' - CC-Queue';\n  $('lesson-text').innerHTML = marked(from.is_own && !run.faults.length ? 'This page pl\
ayed it too, with the same events and report.' : text);\n  $('stop-before').hidden = $('stop-next').hidden = !(lesson \
&& lesson.kind === 'tour');\n  $('to-lecture').hidden = !(lesson && lesson.moments.length);\n  $('compare').hidden = !\
(lesson && lesson.table);\n  $('compare').textContent = run.variant ? 'the right queue' : 'the broken queue';\n  $('pa\
ir').hidden = !canPair();\n  $('task-hint').hidden = true;\n  $('config').textContent = 'Capacity ' + run.capacity + '\
, bound ' + run.bound + ', life ' + run.life + '; ' + plural(senders, 'sender') + ', '\n    + (groups > 1 ? groups + \
' groups of ' : '') + plural(receivers, 'receiver') + '.';\n  for (const link of document.querySelectorAll('#choose a[\
data-id]')) {\n    const here = (lesson || exercise || {}).id === link.dataset.id && !lesson === (link.dataset.of === \
'exercise');\n    link.classList.toggle('here', here);\n    if (here) link.setAttribute('aria-current', 'true'); else \
link.removeAttribute('aria-current');\n  }\n  // the order of all calls is up here in a lesson about it\n  const about\
_order = !!(lesson && lesson.opens === 'order');\n  if (about_order) $('lesson').after($('order')); else $('rest').ins\
ertBefore($('order'), $('texts'));\n  $('order').open = about_order;\n  $('alarm').innerHTML = '';\n  if (run.faults.l\
ength) {\n    $('alarm').innerHTML = '<p class=\"bad\">' + (from.is_own ? 'This page and the program disagree. ' : ''\
) + run.faults.map(() => '<span></span>').join(' ') + '</p>';\n    $('alarm').querySelectorAll('span').forEach((span, \
i) => { span.textContent = run.faults[i]; });\n  }\n  if (lesson && lesson.table) openPair();\n  $('pair').setAttribut\
e('aria-pressed', pair ? 'true' : 'false');\n  drawNames();\n  measure();\n  run.goTo(event);\n  draw();\n  if (measur\
e()) draw();\n}\n\n\
// The run that the program wrote. A page of another plan than the one in the folder of this page begins with its run.\
\nconst OWN = { is_own: true, title: 'The run that the program wrote' };\nfunction openOwn(event) {\n  const opened = \
Machine.open(Machine.planOfRun($('run').textContent), '', $('report').textContent);\n  OWN.is_site = opened.planText()\
.replace(/\\s/g, '') === $('site').textContent;\n  openRun(opened, OWN, event);\n}\nfunction openLesson(id, event, tab\
le) {\n  const lesson = LESSONS.find(one => one.id === id);\n  if (!lesson) return false;\n  openRun(Machine.open(Mach\
ine.planOfText(JSON.stringify(lesson.plan)), table === 'right' ? '' : lesson.table || ''), { lesson }, event);\n  retu\
rn true;\n}\n// Opens an exercise with the steps that were made, as far as the passes have these steps.\nfunction open\
Exercise(id, steps, event) {\n  const exercise = EXERCISES.find(one => one.id === id);\n  if (!exercise) return false;\
\n  const opened = Machine.open(Machine.planOfText(JSON.stringify(exercise.plan)), exercise.table || ''), from = opene\
d.now;\n  Telling.makeSteps(opened, steps);\n  openRun(opened, { exercise, from }, event === null ? opened.events.leng\
th : Math.max(from, event));\n  return true;\n}\n// Opens a plan in JSON, and says what is wrong with it, or nothing.\
\nfunction openPlan(text, event, table, title) {\n  let opened;\n  try {\n    opened = Machine.open(Machine.planOfText\
(text), table || '');\n  } catch (fault) {\n    return fault.message;\n  }\n  openRun(opened, { title }, event === nul\
l ? 0 : event);\n  return '';\n}\n\n\
// Opens what the address names. Says whether it names a run.\nfunction fromAddress() {\n  const words = new Map(locat\
ion.hash.slice(1).split('&').map(part => [part.split('=')[0], part.split('=').slice(1).join('=')]));\n  const numberO\
f = name => /^\\d+$/.test(words.get(name) || '') ? Number(words.get(name)) : null;\n  const event = numberOf('event')\
, table = words.get('table');\n  document.body.classList.toggle('bare', words.get('view') === 'run');\n  document.body\
.classList.remove('handout');\n  if (words.has('handout')) { openHandout(); return false; }\n  if (words.has('lecture'\
) && openLecture(words.get('lecture'), (numberOf('screen') || 1) - 1)) return false;\n  if (lecture) { lecture = null\
; document.body.classList.remove('lecture', 'blank'); $('lecture').hidden = true; }\n  if (words.has('exercise') && op\
enExercise(words.get('exercise'), stepsOf(words.get('steps') || ''), event)) return true;\n  if (words.has('lesson') &\
& openLesson(words.get('lesson'), event === null ? 0 : event, table)) return true;\n  if (words.has('plan')) {\n    le\
t text = '';\n    try { text = decodeURIComponent(words.get('plan')); } catch (fault) { /* said below */ }\n    const \
wrong = openPlan(text, event, CHANGES[table] ? table : '', 'A plan from a link');\n    if (!wrong) return true;\n    o\
penOwn(0);\n    $('alarm').innerHTML = '<p class=\"bad\">The link holds no plan. <span></span></p>';\n    $('alarm').q\
uerySelector('span').textContent = wrong;\n    return false;\n  }\n  if (event === null) return false;\n  if (source.i\
s_own) goTo(event); else openOwn(event);\n  return true;\n}\n\n\
function toStage() {\n  $('stage').scrollIntoView();\n  $('stage').focus({ preventScroll: true });\n}\n\n\
function toStop(step) {\n  const at = TOUR.indexOf(source.lesson), next = at < 0 ? (step > 0 ? 0 : TOUR.length - 1) : \
at + step;\n  if (next < 0 || next >= TOUR.length) return;\n  openLesson(TOUR[next].id, 0);\n  keepPlace();\n  toStage\
();\n}\n\n\
function toMoment(step) {\n  const moments = source.lesson ? part().moments : [];\n  const next = step > 0 ? moments.f\
ind(([event]) => event > run.now) : moments.filter(([event]) => event < run.now).pop();\n  if (next) { if (run.chosen \
> 0) run.choose(0); seek(next[0]); }\n}\n\n\
// ---- Once, at the beginning.\n\n\
for (const [id, kind] of [['tour', 'tour'], ['examples', 'example'], ['broken', 'broken'], ['exercise-list', 'exercise\
']]) {\n  const all = kind === 'exercise' ? EXERCISES : LESSONS.filter(lesson => lesson.kind === kind), of = kind === \
'exercise' ? 'exercise' : 'lesson';\n  $(id).innerHTML = all.map(one => '<li><a class=\"pick\" data-of=\"' + of + '\" \
data-id=\"' + one.id + '\" href=\"#' + of + '=' + one.id + '\">' + one.title + '</a></li>').join('');\n}\n$('words').i\
nnerHTML = Object.entries(WORDS).map(([word, text]) => '<dt>' + word + '</dt><dd id=\"' + wordId(word) + '\">' + text \
+ '</dd>').join('');\n$('legend').innerHTML = Object.keys(GROUPS_OF_KINDS).map(group => '<span><i class=\"dot\" style=\
\"background:var(--' + group + ')\"></i>' + GROUPS_OF_KINDS[group] + '</span>').join('')\n  + '<span><i class=\"dot\" \
style=\"background:var(--serve);height:4px;vertical-align:middle\"></i>its request is being served</span><span><b>3&#2\
15;</b> three reads of a state in a row</span><span>outlined: still to come</span>';\n$('kinds').innerHTML = KINDS.sli\
ce(1).map(kind => '<dt>' + kind[2] + ', <code>' + kind[1] + '</code> ' + kind[0] + '</dt><dd>' + kind[4] + '</dd>').jo\
in('');\ndocument.querySelector('.tables').innerHTML = '<option value=\"\">the right one</option>'\n  + LESSONS.filter\
(lesson => lesson.table).map(lesson => '<option value=\"' + lesson.table + '\">' + lesson.title + '</option>').join(''\
);\n$('lecture-lesson').innerHTML = LECTURES.map((lesson, k) => '<option value=\"' + lesson.id + '\">' + (k + 1) + '. \
' + lesson.title + '</option>').join('');\n\n\
$('slider').addEventListener('input', () => seek(Number($('slider').value)));\nconst MOVES = { first: () => 0, before\
: () => nextDecision(run.now, -1), back: () => run.now - 1, next: () => run.now + 1, after: () => nextDecision(run.now\
, 1), last: () => run.events.length };\nfor (const [id, to] of Object.entries(MOVES)) $(id).addEventListener('click', \
() => seek(to()));\nfor (const id of ['play', 'live-play']) $(id).addEventListener('click', () => play(!playing));\n$(\
'more-toggle').addEventListener('click', () => {\n  const open = $('player').classList.toggle('open');\n  $('more-togg\
le').setAttribute('aria-expanded', open ? 'true' : 'false');\n});\n$('speed').addEventListener('change', () => { if (p\
laying) play(true); });\n$('branches').addEventListener('change', () => { play(false); run.choose(Number($('branches')\
.value)); draw(); keepPlace(); });\nfor (const id of ['cells', 'turns', 'moments', 'law', 'parting']) $(id).addEventLi\
stener('click', click => {\n  const cell = click.target.closest('[data-event]');\n  if (cell && id === 'moments' && ru\
n.chosen > 0) run.choose(0);\n  if (cell) seek(Number(cell.dataset.event));\n});\n$('compare').addEventListener('click\
', () => {\n  openLesson(source.lesson.id, pair ? pair.upTo[run.now] : run.now, run.variant ? 'right' : undefined);\
\n  keepPlace();\n  $('compare').focus();\n});\n$('pair').addEventListener('click', () => {\n  if (pair) pair = null; \
else openPair();\n  $('pair').setAttribute('aria-pressed', pair ? 'true' : 'false');\n  draw();\n});\n$('law').addEven\
tListener('toggle', toggle => { if (toggle.target.tagName === 'DETAILS') { law_open = toggle.target.open; delete drawn\
.law; } }, true);\n$('names').addEventListener('click', click => {\n  const button = click.target.closest('button');\
\n  if (!button) return;\n  const row = Number(button.dataset.row);\n  if (button.className !== 'more') stepOf(row, bu\
tton.className === 'leap');\n  else if (row >= senders) addCall(row);\n  else { $('add').hidden = false; choosePass(ro\
w); say('The words of the item of a further send of ' + passName(row) + ', or a close.'); $('body').focus(); $('body')\
.select(); }\n});\n$('stop-before').addEventListener('click', () => toStop(-1));\n$('stop-next').addEventListener('cli\
ck', () => toStop(1));\n$('to-lecture').addEventListener('click', toLecture);\n$('search').addEventListener('click', s\
earch);\n$('hint-button').addEventListener('click', () => { $('task-hint').hidden = false; $('task-hint').innerHTML = \
marked('Hint: ' + source.exercise.hint); });\n$('solve').addEventListener('click', () => { openExercise(source.exercis\
e.id, source.exercise.solution, source.from); keepPlace(); });\n$('next-exercise').addEventListener('click', () => { o\
penExercise(EXERCISES[EXERCISES.indexOf(source.exercise) + 1].id, [], null); keepPlace(); toStage(); });\n$('again').a\
ddEventListener('click', () => { openExercise(source.exercise.id, [], null); keepPlace(); });\n$('lecture-back').addEv\
entListener('click', () => toScreen(-1));\n$('lecture-next').addEventListener('click', () => toScreen(1));\n$('lecture\
-leave').addEventListener('click', leaveLecture);\n$('lecture-program').addEventListener('click', toggleCode);\n$('lec\
ture-full').addEventListener('click', fullScreen);\n// after a click the keys lead on, and don't press that button onc\
e more\n$('lecture').addEventListener('click', click => { const button = click.detail > 0 && click.target.closest('but\
ton'); if (button) button.blur(); });\n$('lecture-lesson').addEventListener('change', () => openLecture($('lecture-les\
son').value, 0));\n$('caller').addEventListener('change', () => choosePass(Number($('caller').value)));\n$('add').addE\
ventListener('submit', submit => {\n  submit.preventDefault();\n  const row = Number($('caller').value);\n  addCall(ro\
w, row < senders ? $('body').value.trim().split(/\\s+/) : undefined);\n});\n$('add-close').addEventListener('click', (\
) => addCall(Number($('caller').value)));\n$('add-take').addEventListener('click', () => addCall(Number($('caller').va\
lue)));\n$('all').addEventListener('change', draw);\n$('texts').addEventListener('toggle', drawTexts);\n$('order').add\
EventListener('toggle', drawOrder);\n$('export').addEventListener('click', () => { $('texts').open = true; drawTexts()\
; $('plan').focus(); $('plan').select(); });\n$('copy').addEventListener('click', () => {\n  $('link').select();\n  i\
f (navigator.clipboard) navigator.clipboard.writeText($('link').value).catch(() => {});\n});\n// A queue of the reader\
's own: the items of sender 1 are 101, 102 and so on, and a further word is ten times the one before.\n$('own-form').a\
ddEventListener('submit', submit => {\n  submit.preventDefault();\n  const form = $('own-form').elements, of = name =\
> Number(form[name].value);\n  const body = (s, k) => { const first = 100 * (s + 1) + k + 1, words = [...Array(of('wor\
ds')).keys()].map(n => first * 10 ** n); return second ? words : words[0]; };\n  const second = of('groups') > 1 || of\
('words') > 1;\n  const plan = { ...(second ? { version: 2, groups: of('groups') } : {}), capacity: of('capacity'), bo\
und: of('bound'), life: of('life'),\n    senders: [...Array(of('senders')).keys()].map(s => [...Array(of('sends')).key\
s()].map(k => body(s, k))), receivers: Array(of('groups') * of('receivers')).fill(of('takes')), schedule: [] };\n  con\
st wrong = openPlan(JSON.stringify(plan), 0, form.table.value, 'Your own queue');\n  $('import-hint').textContent = wr\
ong;\n  if (!wrong) { keepPlace(); toStage(); }\n});\nfunction importPlan(text) {\n  const wrong = openPlan(text, 0, $\
('own-form').elements.table.value, 'Your plan');\n  $('import-hint').textContent = wrong;\n  if (!wrong) { keepPlace()\
; toStage(); }\n}\n// An empty field opens the example that it shows.\n$('open-plan').addEventListener('click', () => \
importPlan($('import').value || $('import').placeholder));\n$('file').addEventListener('change', async () => {\n  cons\
t [file] = $('file').files;\n  if (!file) return;\n  $('import').value = await file.text();\n  importPlan($('import').\
value);\n});\ndocument.querySelector('header nav').addEventListener('click', click => {\n  const id = click.target.has\
h && click.target.hash.slice(1);\n  if (id && id.startsWith('lecture')) { click.preventDefault(); toLecture(); return\
; }\n  if (!$(id)) return;\n  click.preventDefault();\n  if (id === 'own') $('own').open = true;\n  $(id).scrollIntoVi\
ew();\n  $(id).setAttribute('tabindex', '-1');\n  $(id).focus({ preventScroll: true });\n});\ndocument.querySelector('\
.skip').addEventListener('click', click => { click.preventDefault(); toStage(); });\n$('choose').addEventListener('cli\
ck', click => {\n  const link = click.target.closest('a[data-id]');\n  if (!link || click.ctrlKey || click.metaKey || \
click.shiftKey) return;\n  click.preventDefault();\n  if (link.dataset.of === 'exercise') openExercise(link.dataset.id\
, [], null); else openLesson(link.dataset.id, 0);\n  keepPlace();\n  toStage();\n});\nfor (const [event, does] of [['m\
ouseover', explain], ['focusin', explain], ['click', explain], ['mouseout', hideTip], ['focusout', hideTip]]) {\n  doc\
ument.addEventListener(event, from => { const term = from.target.closest && from.target.closest('.term'); if (term) do\
es(term); });\n}\n\n\
// Whether a key belongs to what has the focus: a field for text, or another that uses the key itself.\nfunction isTyp\
ed(target, name) {\n  if (target.closest('textarea, pre, input:not([type=range]):not([type=checkbox]):not([type=file])\
')) return true;\n  if (target.closest('select')) return name !== ' ';\n  return name === ' ' && target.closest('input\
[type=checkbox], input[type=file]');\n}\n// The keys of a lecture. A button that has the focus is pressed by Enter an\
d space, and the list of lessons uses all but the keys below.\nconst SCREEN_KEYS = { ArrowRight: 1, ArrowDown: 1, Page\
Down: 1, ' ': 1, Enter: 1, n: 1, ArrowLeft: -1, ArrowUp: -1, PageUp: -1, Backspace: -1, p: -1 };\nfunction lectureKey(\
key) {\n  if (key.target.closest('button') && ['Enter', ' '].includes(key.key)) return;\n  if (key.target.closest('sel\
ect') && !['PageDown', 'PageUp', 'ArrowRight', 'ArrowLeft', 'Escape'].includes(key.key)) return;\n  const others = { H\
ome: () => openLecture(lecture.lesson.id, 0), End: () => openLecture(lecture.lesson.id, Infinity), Escape: leaveLectur\
e, l: leaveLecture, c: toggleCode, f: fullScreen, b: blank, '.': blank };\n  const blanked = document.body.classList.c\
ontains('blank');\n  if (!SCREEN_KEYS[key.key] && !others[key.key]) return;\n  key.preventDefault();\n  if (blanked) b\
lank();\n  else if (SCREEN_KEYS[key.key]) toScreen(SCREEN_KEYS[key.key]);\n  else others[key.key]();\n}\nconst blank \
= () => document.body.classList.toggle('blank');\ndocument.addEventListener('keydown', key => {\n  if (key.key === 'Es\
cape') hideTip();\n  if (key.ctrlKey || key.metaKey || key.altKey || !key.target.closest) return;\n  if (lecture) { le\
ctureKey(key); return; }\n  if (isTyped(key.target, key.key)) return;\n  const moves = { ArrowRight: 'next', ArrowLeft\
: 'back', d: 'after', D: 'before' };\n  if (key.target.closest('#player')) Object.assign(moves, { PageDown: 'after', P\
ageUp: 'before', Home: 'first', End: 'last' });\n  const others = { ' ': () => play(!playing), n: () => toStop(1), p: \
() => toStop(-1), m: () => toMoment(1), M: () => toMoment(-1), l: toLecture };\n  // a digit, also with Shift, which w\
rites another sign\n  const digit = /^[1-9]$/.test(key.key) ? key.key : key.shiftKey && /^Digit[1-9]$/.test(key.code) \
? key.code[5] : '';\n  if (digit && Number(digit) <= rows) others[key.key] = () => stepOf(Number(digit) - 1, key.shift\
Key);\n  // a row of boxes that is wider than its card scrolls by the arrows\n  const strip = key.target.closest('.str\
ip');\n  if (strip && key.key.startsWith('Arrow') && strip.scrollWidth > strip.clientWidth) return;\n  if (key.key ==\
= ' ' && key.target.closest('.term')) return;\n  if (!moves[key.key] && !others[key.key]) return;\n  key.preventDefaul\
t();\n  // a key that moves the run shows it\n  if (!key.target.closest('#live') && $('player').getBoundingClientRect(\
).bottom > window.innerHeight) $('stage').scrollIntoView();\n  if (others[key.key]) others[key.key](); else seek(MOVES\
[moves[key.key]]());\n});\n// space plays: it doesn't press the button that has the focus too\ndocument.addEventListen\
er('keyup', key => { if (key.key === ' ' && !lecture && key.target.closest && !isTyped(key.target, ' ')) key.preventDe\
fault(); });\nwindow.addEventListener('hashchange', () => { if (fromAddress()) $('stage').scrollIntoView(); });\nopenO\
wn(0);\nif (!OWN.is_site) {\n  document.body.classList.add('own-run');\n  document.querySelector('h1').textContent = T\
elling.titleOf(run);\n  $('stage').after($('intro'), $('choose'));\n}\ndocument.body.dataset.check = run.faults.lengt\
h ? 'disagrees' : 'agrees';\nif (fromAddress() && !document.body.classList.contains('bare')) $('stage').scrollIntoView\
();\nnew ResizeObserver(() => { if (measure()) draw(); }).observe($('cells'));\nnew ResizeObserver(() => measure()).ob\
serve($('player'));\nwindow.addEventListener('resize', () => { if (measure()) draw(); });\nmeasure();\ndraw();\n})();\
\n</script>\n</body>\n</html>\n";
