//! The page of the screen. It is made of the files of page/ by tools/page.py.

/// The page.
pub const PAGE: &str = "<!doctype html>
<html lang=\"en\">
<head>
<meta charset=\"utf-8\">
<meta name=\"viewport\" content=\"width=device-width, initial-scale=1\">
<title>screen</title>
<link rel=\"icon\" id=\"icon\" href=\"data:,\">
<style>
:root { color-scheme: light; --back: #eceff3; --card: #fff; --part: #f3f5f8; --ink: #12161c; --soft: #465160;
  --line: #c3ccd6; --focus: #0b57d0; --none: #d5dbe2 }
@media (prefers-color-scheme: dark) { :root:not([data-theme=light]) { color-scheme: dark; --back: #0c0f14;
  --card: #171c24; --part: #1f2630; --ink: #eef2f7; --soft: #a9b4c2; --line: #36414f; --focus: #8ab4f8;
  --none: #333d49 } }
:root[data-theme=dark] { color-scheme: dark; --back: #0c0f14; --card: #171c24; --part: #1f2630; --ink: #eef2f7;
  --soft: #a9b4c2; --line: #36414f; --focus: #8ab4f8; --none: #333d49 }
* { box-sizing: border-box }
html { font-size: calc(var(--size, 1) * 100%); background: var(--back) }
body { margin: 0; color: var(--ink); font: 1rem/1.25 system-ui, \"DejaVu Sans\", \"Segoe UI\", Roboto, sans-serif;
  font-variant-numeric: tabular-nums }
button { font: inherit; color: inherit; background: none; border: 0; padding: 0; text-align: left; cursor: pointer }
:focus-visible { outline: 3px solid var(--focus); outline-offset: 1px; border-radius: 4px }
header { display: flex; flex-wrap: wrap; align-items: center; gap: .3rem .8rem; padding: .3rem .8rem;
  border-bottom: 2px solid var(--line) }
h1 { font-size: 1.2rem; margin: 0; font-weight: 600 }
h1 a, a.tool { color: var(--soft); text-decoration: none }
a.tool { display: inline-block; margin-top: .8rem }
#live { font-weight: 700; padding: .1rem .7rem; border-radius: 99px; background: #0ba860; color: #000 }
#live.late { background: #f2c841; color: #000 }
#live.lost { background: #bb1c1c; color: #fff }
#clock { margin-left: auto; font-size: 1.5rem; font-weight: 700 }
.tool { border: 2px solid var(--line); border-radius: 8px; padding: .15rem .6rem; color: var(--soft); font-weight: 600 }
.tool[aria-pressed=true] { color: var(--ink); border-color: var(--soft) }
#find, #token, #my-name { font: inherit; width: 9rem; padding: .15rem .5rem; border: 2px solid var(--line);
  border-radius: 8px; background: var(--card); color: var(--ink) }
select { font: inherit; color: var(--ink); background: var(--card); border: 2px solid var(--line); border-radius: 8px }
#all { display: grid; grid-template: \"aside\" \"main\" \"footer\" / minmax(0, 1fr) }
aside { grid-area: aside; padding: .4rem .8rem 0 }
main { grid-area: main; padding: .4rem .8rem }
footer { grid-area: footer; padding: 0 .8rem .4rem; color: var(--soft); display: grid; gap: .25rem }
@media (min-width: 64rem) and (min-height: 32rem) {
  body { display: grid; grid-template: \"head\" auto \"as-of\" auto \"all\" minmax(0, 1fr) \"past\" auto / minmax(0, 1fr);
    height: 100vh }
  header { grid-area: head }
  #as-of { grid-area: as-of }
  #all { grid-area: all }
  #past { grid-area: past }
  #all { grid-template: \"main aside\" minmax(0, 1fr) \"footer aside\" auto / minmax(0, 1fr) 18rem }
  main, aside { overflow: auto; position: relative }
  aside { border-left: 2px solid var(--line) }
}
@media (min-width: 100rem) and (min-height: 32rem) { #all { grid-template-columns: minmax(0, 1fr) 24rem } }
#lost { display: none; position: fixed; inset: 0; z-index: 3; background: #7f1010e6; color: #fff;
  place-content: center; text-align: center; font-size: 6rem; font-weight: 900; line-height: 1.05; padding: 1rem }
.lost #lost { display: grid }
.lost #all { filter: grayscale(1); opacity: .45 }
kbd { border: 1px solid var(--line); border-radius: 4px; padding: 0 .35em; font: inherit; font-weight: 700 }
details { border-top: 2px solid var(--line); padding: .25rem 0 }
summary { font-weight: 700; cursor: pointer }
#help p { margin: .3rem 0 0 }
.legend { display: flex; flex-wrap: wrap; gap: .2rem 1rem; align-items: center }
.legend b, #people button { display: inline-flex; align-items: center; gap: .35rem; font-weight: 600 }
.legend i { width: 1rem; height: 1rem; border-radius: 50%; background: var(--c, var(--none)) }
.legend i, .devices i { box-shadow: inset 0 0 0 1px var(--soft) }
.legend i.initials { width: auto; height: auto; border-radius: 4px; padding: 0 .3em; font-style: normal;
  font-weight: 800; font-size: .85em; color: var(--t, var(--ink)) }
#people [aria-pressed=true] { text-decoration: underline; text-underline-offset: .25em }
#people .idle { display: none }
.hidden { position: absolute; width: 1px; height: 1px; overflow: hidden; clip-path: inset(50%) }
.left-out { display: none }
#main { display: grid; gap: .8rem }
section { min-width: 0 }
.name { font-weight: 800; overflow-wrap: anywhere }
.state { display: inline-flex; align-items: center; border-radius: 8px; padding: .05em .5em; font-weight: 800;
  white-space: nowrap; background: var(--c, var(--none)); color: var(--t, var(--ink)) }
.who { font-weight: 700; border-radius: 6px; padding: 0 .45em; white-space: nowrap; background: var(--who, #0000);
  color: var(--whot, var(--soft)) }
.who:empty, .mode:empty, .note:empty { display: none }
.mode { color: var(--soft); font-size: .9rem; font-weight: 700 }
.note { font-weight: 800; border-radius: 6px; padding: 0 .45em; white-space: nowrap; color: var(--soft) }
.silent > .top > .note { background: #f2c841; color: #000 }
.top { display: flex; flex-wrap: wrap; align-items: center; gap: .1rem .5rem; width: 100% }
.fold { flex: none; width: 1em; color: var(--soft); text-align: center; font-weight: 800 }
.fold::before { content: \"\\25BE\" }
.folded > .top > .fold::before { content: \"\\25B8\" }
.folded > .top > .fold.hot { color: #fff; background: #bb1c1c; border-radius: 4px }
body:not(.finding) .folded > .kids { display: none }
.root > .top { padding: .2rem .7rem; border-radius: 10px; background: var(--card); border: 2px solid var(--line);
  border-left: 12px solid var(--edge, var(--line)) }
.root > .top > .name { font-size: 2rem }
.root > .top > .state { font-size: 2rem }
.root > .top > .who { font-size: 1.2rem }
.cards { display: grid; gap: .6rem; margin-top: .5rem; grid-template-columns: repeat(auto-fit, minmax(14rem, 1fr)) }
.root.small > .cards { grid-template-columns: repeat(auto-fit, minmax(11rem, 1fr)) }
.card { background: var(--card); border: 2px solid var(--line); border-left: 12px solid var(--edge, var(--line));
  border-radius: 10px; padding: .35rem .6rem .5rem }
.card > .top > .name { font-size: 1.5rem; margin-right: auto }
.card > .top > .state { font-size: 1.35rem }
.part { background: var(--part); border-radius: 8px; border-left: 8px solid var(--edge, var(--line)); margin-top: .4rem;
  padding: .2rem .5rem .35rem }
.part > .top > .name { font-size: 1.15rem }
.part > .top > .state { margin-left: auto }
.part:not(.own) > .top > .note, .group:not(.own) > .top > .note { display: none }
.group { border-left: 6px solid var(--edge, var(--line)); padding-left: .35rem; margin-top: .25rem }
.group > .top > .name { font-weight: 600 }
.group > .top > .state { font-size: .9rem; margin-left: auto; padding: .05em .4em }
.apart { border-left-style: dashed }
.root.apart > .top { border-left-style: dashed }
.devices { display: flex; flex-wrap: wrap; gap: 3px; flex: 100%; order: 1 }
.devices i { width: 1rem; height: 1rem; border-radius: 50%; background: var(--c, var(--none));
  color: var(--t, var(--ink)); font: 800 .75rem/1rem system-ui, sans-serif; text-align: center }
.silent > .top > .name { color: var(--soft) }
.silent > .top > .state, .silent > .top i, .unseen, .old .state { background: repeating-linear-gradient(135deg,
  var(--none) 0 8px, var(--part) 8px 16px); color: var(--soft); outline: 2px dashed var(--soft); outline-offset: -2px }
.silent > .top > .state, .old .state { text-decoration: line-through }
.busy::after { content: \"\"; order: 2; flex: 100%; height: 5px; border-radius: 3px;
  background: repeating-linear-gradient(90deg, #f2c841 0 14px, #0000 14px 28px); animation: go 1.2s linear infinite }
.group > .busy::after { height: 3px }
@keyframes go { to { background-position: 28px 0 } }
@media (prefers-reduced-motion: reduce) { .top::after { animation: none !important } }
.dense #main, .dense .cards { display: block; margin: 0 }
.dense #main { columns: 11.5rem; column-gap: .5rem }
.dense .root > .top { column-span: all; padding: 0 .5rem; margin-bottom: .3rem }
.dense .root > .top > .name, .dense .root > .top > .state { font-size: 1.3rem }
.dense .root > .top > .who { font-size: 1rem }
.dense.many .root { margin-bottom: .3rem }
.dense.many .root > .top { column-span: none; margin: 0; padding: 0 .3rem }
.dense.many .root > .top > .name, .dense.many .root > .top > .state { font-size: .95rem }
.dense .top { gap: 0 .3rem; break-inside: avoid; min-height: 1.05rem }
.dense #main section { font-size: .8rem; line-height: 1.2 }
.dense .card, .dense .part, .dense .group { margin: 0; padding: 0 0 0 .3rem; border-radius: 0; background: none;
  border-width: 0 0 0 5px; border-left-color: var(--edge, var(--line)) }
.dense .card { margin-bottom: .3rem; padding-right: .2rem; background: var(--card); border-radius: 4px;
  -webkit-box-decoration-break: clone; box-decoration-break: clone }
.dense.many .card { margin: 0; background: none }
.dense.many .usual.card > .top > .state, .dense.many .same.card > .top > .state { display: none }
.dense .card > .top > .name { font-size: .95rem; margin: 0 }
.dense.many .card > .top > .name { font-size: .8rem; font-weight: 600 }
.dense .card > .top > .state { font-size: .85rem }
.dense .part > .top > .name, .dense .group > .top > .name { font-size: .8rem; font-weight: 600 }
.dense .part > .top > .name { font-weight: 800 }
.dense .state, .dense .part > .top > .state, .dense .group > .top > .state { font-size: .72rem; padding: 0 .3em;
  border-radius: 4px; margin-left: auto }
.dense .note { font-size: .72rem; padding: 0 .3em }
.dense .same:not(.root):not(.card) > .top > .state, .dense .usual:not(.root):not(.card) > .top > .state,
.dense .silent:not(.own):not(.root) > .top > .state { display: none }
.dense .same:not(.root):not(.card) > .top > .name, .dense .usual:not(.root):not(.card) > .top > .name {
  font-weight: 500 }
#usual { display: none; font-weight: 600 }
.dense #usual { display: inline }
.dense section:not(.root):not(.card):not(.apart) > .top > .who { display: none }
.dense section:not(.root) > .top > .who { font-size: .72rem; padding: 0 .3em }
.dense .devices { flex: none; order: 0; gap: 2px; max-width: 100% }
.dense .devices i { width: .55rem; height: .55rem; font-size: .5rem; line-height: .55rem }
.dense .fold { width: .8em; margin-left: -.2rem }
.dense .busy::after { height: 2px }
.dense .legend { font-size: .8rem; gap: 0 .8rem }
.dense .legend i:not(.initials) { width: .7rem; height: .7rem }
.dense footer { font-size: .8rem }
#alarms ul { list-style: none; margin: 0; padding: 0 }
#alarms h2 { font-size: 1.15rem; margin: 0 auto 0 0 }
#alarms h3 { display: flex; gap: .5rem; font-size: .9rem; margin: .3rem 0 .1rem; color: var(--soft) }
.alarm-head { display: flex; flex-wrap: wrap; align-items: center; gap: .3rem .5rem }
.alarm-head .tool, .alarm-head select { font-size: .85rem; padding: .05rem .4rem }
.calm { color: var(--soft); font-weight: 600 }
.unknown { font-weight: 700; padding: .15rem .5rem; border-radius: 8px; border: 3px dashed var(--soft);
  margin: .3rem 0 0 }
.alarm { display: flex; align-items: stretch; gap: 2px; margin-bottom: 2px; font-size: .9rem }
.alarm > [data-alarm] { flex: 1; display: flex; flex-wrap: wrap; gap: 0 .4rem; padding: .05rem .4rem;
  border-radius: 5px; background: #bb1c1c; color: #fff; border: 1px solid #0000 }
.alarm.warn > [data-alarm] { background: #f2c841; color: #000 }
.alarm.known > [data-alarm] { background: var(--card); color: inherit; border-color: #bb1c1c }
.alarm.known.warn > [data-alarm] { border-color: #c79c12 }
.alarm time { font-weight: 400 }
.alarm b { overflow-wrap: anywhere }
.alarm small { flex: 100%; font-size: .75rem; overflow-wrap: anywhere }
.alarm .small { border: 1px solid var(--line); border-radius: 5px; padding: 0 .35rem; color: var(--soft);
  font-size: .75rem; background: var(--card) }
.dense .alarm { font-size: .75rem }
.dense .alarm .small { font-size: .65rem; padding: 0 .2rem }
.dense .alarm small { display: none }
.dense .alarm > [data-alarm] { padding: 0 .4rem }
.dense #alarms h3 { margin: .15rem 0 0 }
.shelved { color: var(--soft) }
#hour { margin-top: .4rem; font-size: .9rem }
#log { list-style: none; margin: .3rem 0 0; padding: 0; max-height: 50vh; overflow: auto }
#log li { padding: .1rem 0; border-bottom: 1px solid var(--line); overflow-wrap: anywhere }
#log time { color: var(--soft); margin-right: .8em }
@media (max-width: 63.99rem), (max-height: 31.99rem) { #alarms { max-height: min(11rem, 40vh); overflow: auto } }
dialog { position: fixed; inset: 0 0 0 auto; width: min(34rem, 100%); height: 100vh; max-height: 100vh; margin: 0;
  padding: 0 1.2rem 1.2rem; background: var(--card); color: var(--ink); border: 0; border-left: 4px solid var(--line);
  overflow: auto }
dialog::backdrop { background: #0006 }
#more-head { position: sticky; top: 0; z-index: 1; display: flex; align-items: center; gap: .8rem; padding: .6rem 0;
  background: var(--card) }
#more-head h2 { font-size: 1.9rem; margin: 0 auto 0 0; overflow-wrap: anywhere }
dl { display: grid; grid-template-columns: auto 1fr; gap: .25rem 1rem; font-size: 1.1rem; margin: 0 }
dt { color: var(--soft) }
dd { margin: 0; font-weight: 700; overflow-wrap: anywhere }
table { width: 100%; border-collapse: collapse; margin: 1rem 0 }
td, th { padding: .2rem .4rem; border-bottom: 1px solid var(--line); text-align: left }
[hidden] { display: none !important }
#as-of { display: none; flex-wrap: wrap; align-items: center; gap: .3rem 1rem; padding: .3rem .8rem;
  background: var(--ink); color: var(--back) }
.as-of #as-of { display: flex }
#as-of-words { font-size: 1.8rem; font-weight: 900 }
#as-of :focus-visible { outline-color: var(--back) }
#as-of button { border: 2px solid var(--back); border-radius: 8px; padding: .15rem .8rem; font-weight: 700 }
#as-of-now:not(:empty) { background: #bb1c1c; color: #fff; border-radius: 8px; padding: .1rem .6rem; font-weight: 800 }
.as-of .given { display: none }
#past { padding: .4rem .8rem; border-top: 4px solid var(--line); background: var(--card) }
#past h2 { font-size: 1.15rem; margin: 0 }
#past-head, #past-time, #summary-tools { display: flex; flex-wrap: wrap; align-items: center; gap: .3rem .8rem }
#past-head label, #past-search-label { display: inline-flex; align-items: center; gap: .4rem; font-weight: 600;
  color: var(--soft) }
#past input:not([type=range]) { font: inherit; width: 11rem; padding: .1rem .5rem; border: 2px solid var(--line);
  border-radius: 8px; background: var(--card); color: var(--ink) }
#past #past-until { width: auto }
#past input.strange { border-style: dashed; border-color: var(--soft) }
#past-old:not(:empty) { background: var(--ink); color: var(--back); border-radius: 8px; padding: .1rem .6rem }
#past-said { font-weight: 700; color: var(--soft) }
#past-close { margin-left: auto }
#past-slider { flex: 1; min-width: 8rem }
#past-shown { font-weight: 800; min-width: 8rem }
#past-body { display: grid; gap: .4rem 1rem; grid-template-columns: minmax(0, 1fr) }
#time-line { position: relative }
#time-line ol, #past-list { list-style: none; margin: 0; padding: 0 }
.row { display: grid; grid-template-columns: 9rem minmax(0, 1fr); gap: .4rem; align-items: center; margin-bottom: 3px }
.row-name { font-weight: 700; font-size: .85rem; overflow-wrap: anywhere; color: var(--ink) }
.track { position: relative; height: 1.5rem; background: var(--none); border-radius: 4px; overflow: hidden;
  cursor: pointer }
.band, .hush { position: absolute; top: 0; bottom: 0; min-width: 1px; background: var(--c, var(--none)) }
.hush { background: repeating-linear-gradient(135deg, #0000 0 5px, #000c 5px 9px), #fff6 }
.mark { position: absolute; top: 0; bottom: 0; width: 9px; margin-left: -4px; font: 900 .8rem/1.5rem system-ui,
  sans-serif; text-align: center; color: #000; text-shadow: 0 0 2px #fff, 0 0 2px #fff, 0 0 3px #fff }
.mark.run { font-weight: 400; font-size: .7rem }
.mark.run::before { content: \"\\2713\" }
.mark.grant::before { content: \"\\25C6\" }
.mark.fault::before { content: \"\\2715\" }
.mark.trip::before { content: \"!\" }
.mark.order::before { content: \"\\25B8\" }
.as-of .track::after { content: \"\"; position: absolute; top: 0; bottom: 0; left: var(--at); width: 2px;
  margin-left: -1px; background: var(--ink); outline: 1px solid var(--card) }
.axis { position: relative; height: 1.2rem; margin-left: 9.4rem; font-size: .8rem; color: var(--soft) }
.axis span { position: absolute; border-left: 1px solid var(--soft); padding-left: .2rem }
#past-signs { margin: 0; color: var(--soft); font-size: .8rem }
#past-signs .mark { position: static; margin: 0 .2rem; color: inherit; text-shadow: none }
#past-list { max-height: 26rem; overflow: auto; font-size: .9rem }
#past-list li { border-bottom: 1px solid var(--line) }
#past-list button { width: 100%; overflow-wrap: anywhere }
#past-list .here, #past-list .here time { background: var(--ink); color: var(--back) }
#past-list time { color: var(--soft); margin-right: .5em }
#its-past { margin-left: .6rem }
#past-more { color: var(--soft); margin: 0; font-weight: 600 }
#summary-text { font: .85rem/1.3 ui-monospace, \"DejaVu Sans Mono\", monospace; white-space: pre-wrap; margin: .4rem 0 }
@media (min-width: 64rem) { #past-body { grid-template-columns: minmax(0, 1fr) 24rem } }
@media (min-width: 64rem) and (min-height: 32rem) { #past { max-height: 48vh; overflow: auto } }
@media print {
  body.summarised { display: block; height: auto }
  body.summarised > :not(#past), body.summarised #past > :not(#past-body), .summarised #past-body > :not(#past-left),
  .summarised #past-left > :not(#summary), .summarised #summary > :not(pre) { display: none !important }
  body.summarised #past { max-height: none; overflow: visible; border: 0; padding: 0; background: #fff; color: #000 }
  .summarised #past-body { display: block }
}
@media (max-width: 40rem) {
  #lost { font-size: 3rem }
  #alarms { max-height: 45vh }
  .root > .top > .name, .root > .top > .state { font-size: 1.5rem }
  .cards { grid-template-columns: 1fr !important }
  .dense #main { columns: auto }
}
@media (max-width: 40rem) {
  button, summary, select, #find, #token, #my-name, #past input, h1 a, .tool { min-height: 44px; min-width: 44px }
  h1 a { display: inline-flex; align-items: center }
  .top { min-height: 44px !important }
  .row { grid-template-columns: 5rem minmax(0, 1fr) }
  .axis { margin-left: 5.4rem }
  .axis span:nth-child(even) { display: none }
  #past-slider { flex: 100%; order: -1 }
  .fold { min-width: 44px; line-height: 44px; margin: 0 -.3rem 0 -.8rem }
  .alarm > * { align-items: center }
}
@media (forced-colors: active) {
  .state, .who, .note, .devices i, .legend i, #live, .alarm > [data-alarm], .fold.hot, .initials,
  .band, .hush, .track .mark {
    forced-color-adjust: none }
  .devices i, .legend i, .alarm > [data-alarm], .state { border: 1px solid CanvasText }
}
</style>
</head>
<body>
<header>
  <h1><a id=\"title\" href=\"#\" title=\"the whole tree\">screen</a></h1>
  <span id=\"live\" role=\"status\">joining</span>
  <span id=\"clock\" aria-hidden=\"true\"></span>
  <input id=\"find\" type=\"search\" placeholder=\"find  /\" aria-label=\"find a domain, a device, an operator or a state\">
  <button class=\"tool\" id=\"dense\" type=\"button\" aria-pressed=\"false\">dense</button>
  <button class=\"tool\" id=\"fit\" type=\"button\" title=\"the largest letters with which all is in the window\">fit</button>
  <button class=\"tool\" id=\"theme\" type=\"button\">light / dark</button>
  <button class=\"tool\" id=\"past-open\" type=\"button\" aria-pressed=\"false\" title=\"what was (h)\">past</button>
</header>
<div id=\"as-of\"><span id=\"as-of-words\" role=\"status\"></span>
  <button id=\"back-to-now\" type=\"button\">back to now</button><span id=\"as-of-now\" role=\"status\"></span></div>
<div id=\"said\" class=\"hidden\" role=\"alert\"></div>
<div id=\"all\">
<aside>
  <section id=\"alarms\" aria-label=\"alarms\"></section>
  <details id=\"hour\"><summary>What this page has seen in the last hour</summary><ol id=\"log\"></ol></details>
</aside>
<main><div id=\"main\" role=\"tree\" aria-label=\"the domains\"></div></main>
<footer>
  <div class=\"legend\" id=\"states\" role=\"region\" aria-label=\"colours of states\"></div>
  <span id=\"usual\"></span>
  <div class=\"legend\" id=\"people\" role=\"region\" aria-label=\"those who command, with their colours\"></div>
  <details id=\"help\"><summary>keys and signs</summary>
    <p><kbd>Tab</kbd>: into the tree and out of it. Arrows: go round in it, <kbd>Left</kbd> folds and <kbd>Right</kbd>
    unfolds. <kbd>Enter</kbd>: more, <kbd>Esc</kbd>: back, <kbd>/</kbd>: find, <kbd>t</kbd>: light or dark,
    <kbd>+</kbd> and <kbd>-</kbd>: size, <kbd>f</kbd>: fit, <kbd>h</kbd>: the past. A name above: what that person
    commands. A dashed edge: held by somebody else than what is above.
    <i>mode unknown</i>: only the node that keeps the domain above knows whether a child is included, manual or ignored,
    and it tells only a screen that orders there.
    <span id=\"never\">This page shows and never orders.</span></p></details>
</footer>
</div>
<section id=\"past\" aria-labelledby=\"past-name\" hidden>
  <div id=\"past-head\">
    <h2 id=\"past-name\" tabindex=\"-1\">The past</h2>
    <label>time <select id=\"past-span\"><option value=\"1\">last hour</option><option value=\"8\">8 hours</option>
      <option value=\"24\">24 hours</option><option value=\"168\">7 days</option></select></label>
    <label>until <input id=\"past-until\" type=\"datetime-local\" max=\"9999-12-31T23:59\"></label>
    <button class=\"tool\" id=\"past-until-now\" type=\"button\" title=\"until now\">now</button>
    <label>of <input id=\"past-of\" list=\"past-names\" placeholder=\"all\" autocomplete=\"off\"></label>
    <datalist id=\"past-names\"></datalist>
    <strong id=\"past-old\" role=\"status\"></strong>
    <span id=\"past-said\" role=\"status\"></span>
    <button class=\"tool\" id=\"past-close\" type=\"button\">close (Esc)</button>
  </div>
  <div id=\"past-time\">
    <button class=\"tool\" id=\"past-before\" type=\"button\">previous entry</button>
    <input id=\"past-slider\" type=\"range\" min=\"0\" max=\"1000\" value=\"1000\" aria-label=\"the time that the page shows\">
    <button class=\"tool\" id=\"past-after\" type=\"button\">next entry</button>
    <output id=\"past-shown\">now</output>
  </div>
  <div id=\"past-body\">
    <div id=\"past-left\">
      <div id=\"time-line\"></div>
      <p id=\"past-signs\"><b class=\"mark grant\"></b>another holder<b class=\"mark run\"></b>a command that ended with
        0<b class=\"mark fault\"></b>one that did not<b class=\"mark trip\"></b>an alarm begins<b class=\"mark order\"></b>an
        order of this screen. Hatched: the station is silent. A name: what is below it.</p>
      <details id=\"summary\"><summary>summary for the log book</summary>
        <div id=\"summary-tools\"><button class=\"tool\" id=\"summary-copy\" type=\"button\">copy</button>
          <button class=\"tool\" id=\"summary-save\" type=\"button\">save</button>
          <button class=\"tool\" id=\"summary-print\" type=\"button\">print</button>
          <span id=\"summary-said\" role=\"status\"></span></div>
        <pre id=\"summary-text\" tabindex=\"0\" aria-label=\"summary\"></pre></details>
    </div>
    <div id=\"past-right\">
      <label id=\"past-search-label\">search <input id=\"past-search\" type=\"search\" placeholder=\"any words\"></label>
      <ol id=\"past-list\" aria-label=\"entries, the newest first\"></ol>
      <p id=\"past-more\"></p>
    </div>
  </div>
</section>
<div id=\"lost\" role=\"alertdialog\" aria-labelledby=\"lost-words\"><span id=\"lost-words\"></span></div>
<dialog id=\"more\" aria-labelledby=\"more-name\"></dialog>
<noscript>This page needs JavaScript.</noscript>
<script>
\"use strict\";
const by = (id) => document.getElementById(id);
function make(tag, name, text) {
  const e = document.createElement(tag);
  if (name) e.className = name;
  if (text !== undefined) e.textContent = text;
  return e;
}
const set = (e, text) => { if (e.textContent !== text) e.textContent = text; };
const flag = (e, name, on) => { if (e.classList.contains(name) !== on) e.classList.toggle(name, on); };
const style = (e, key, value) => {
  if (e.style.getPropertyValue(key) !== value) e.style.setProperty(key, value);
};
const mark = (e, key, value) => { if (e.getAttribute(key) !== value) e.setAttribute(key, value); };
const label = (e, text) => mark(e, \"aria-label\", text);
let stop = null;
function stopAt(top) {
  if (stop) stop.tabIndex = -1;
  stop = top;
  if (top) top.tabIndex = 0;
}
function enter(top) {
  stopAt(top);
  top.focus();
}
function kept(what) {
  try { return localStorage.getItem(what); } catch (refused) { return null; }
}
function keep(what, value) {
  try { localStorage.setItem(what, value); } catch (refused) { }
}
const HOUR = 3600000;
const ALARM = /ERROR|FAULT|ALARM|TRIP/;
let styles = new Map();
let tree = null;
let domains = new Map();
let devices = new Map();
let newest = null;
let picture = null;
let isPast = false;
let cameAt = 0;
const extras = [];
const modeSayers = [];
const afterBuild = [];
const afterShow = [];
const afterRestart = [];
function plant(next) {
  tree = next;
  domains = new Map(next.domains.map((d) => [d.name, { ...d, children: [], devices: [], shown: null, told: null }]));
  devices = new Map(next.devices.map((d) => [d.name, { ...d, shown: null }]));
  domains.forEach((d) => { if (d.parent) domains.get(d.parent).children.push(d); });
  devices.forEach((d) => domains.get(d.domain).devices.push(d));
  newest = picture = null;
  isPast = false;
}
function changed(told) {
  const heard = (d, at) => ({ ...d, told: { ...d.told, heard: at } });
  const next = (it, place, had) => it === 0 ? had[place] : typeof it === \"number\" ? heard(had[place], it) : it;
  return { frame: told.frame, now: told.now,
    domains: told.domains.map((it, place) => next(it, place, newest.domains)),
    devices: told.devices.map((it, place) => next(it, place, newest.devices)) };
}
function hang(next) {
  newest = next;
  if (!isPast) picture = next;
  cameAt = performance.now();
}
function hangPast(earlier) {
  isPast = earlier !== null;
  picture = earlier || newest;
}
const lateness = () => performance.now() - cameAt;
const liveNow = () => newest.now + lateness();
const now = () => isPast ? picture.now : liveNow();
const dateOf = (at) => new Date(isPast ? at : Date.now() - (liveNow() - at));
function commander(d) {
  for (let level = 0; level <= 8 && d; level += 1) {
    if (!d.told) return null;
    if (d.told.holder === null) return \"\";
    if (d.told.holder.operator) return d.told.holder.operator;
    d = domains.get(d.told.holder.domain);
  }
  return null;
}
const stateOf = (x) => x.shown === null ? \"\" : x.shown.state;
const versionOf = (x) => x.shown === null ? \"\" : x.shown.boot + \".\" + x.shown.sequence;
function setStyle(said) { styles = new Map(Object.entries(said)); }
const styleOf = (state) => styles.get(state);
function kindOf(state) {
  const own = styles.get(state);
  if (own) return own[0];
  return ALARM.test(state) ? \"alarm\" : state === \"UNKNOWN\" ? \"unknown\" : \"\";
}
const isAlarm = (x) => kindOf(stateOf(x)) === \"alarm\";
const isUnknown = (x) => stateOf(x) === \"\" || kindOf(stateOf(x)) === \"unknown\";
const holderOf = (d) => d.told && d.told.holder;
function heardStations() {
  const heard = new Map();
  domains.forEach((d) => {
    if (d.told) heard.set(d.station, Math.max(heard.get(d.station) ?? -1, d.told.heard));
  });
  return heard;
}
const MOST_SILENCE = 2000;
function silenceOf(d, heard, time) {
  const last = heard.get(d.station);
  if (last === undefined) return -1;
  return time - last > MOST_SILENCE ? time - last : null;
}
function age(ms) {
  if (ms < 60000) return Math.max(0, Math.round(ms / 1000)) + \" s\";
  return ms < HOUR ? Math.round(ms / 60000) + \" min\" : Math.round(ms / HOUR) + \" h\";
}
const MOST_AT_EASE = 64;
function theme(next) {
  document.documentElement.dataset.theme = next;
  keep(\"theme\", next);
}
function turnTheme() {
  const chosen = document.documentElement.dataset.theme;
  const dark = chosen ? chosen === \"dark\" : matchMedia(\"(prefers-color-scheme: dark)\").matches;
  theme(dark ? \"light\" : \"dark\");
}
function thicken(is) {
  document.body.classList.toggle(\"dense\", is);
  by(\"dense\").setAttribute(\"aria-pressed\", String(is));
}
function fitForm() {
  const isSmall = matchMedia(\"(max-width: 40rem)\").matches;
  thicken(kept(\"dense\") === null ? isSmall || domains.size > MOST_AT_EASE : kept(\"dense\") === \"true\");
}
let size = Math.min(4, Math.max(.5, Number(kept(\"size\")) || 1));
function resize(factor) {
  size = Math.min(4, Math.max(.5, size * factor));
  document.documentElement.style.setProperty(\"--size\", String(size));
  keep(\"size\", String(size));
}
function isAllSeen() {
  const root = document.documentElement, main = by(\"main\").parentElement;
  const fits = (e) => e.scrollHeight <= e.clientHeight && e.scrollWidth <= e.clientWidth;
  return fits(root) && fits(main);
}
function fit() {
  let low = .5, high = 4;
  while (high - low > .02) {
    const middle = (low + high) / 2;
    document.documentElement.style.setProperty(\"--size\", String(middle));
    if (isAllSeen()) low = middle; else high = middle;
  }
  size = low;
  resize(1);
}
by(\"theme\").addEventListener(\"click\", turnTheme);
by(\"fit\").addEventListener(\"click\", fit);
if (kept(\"theme\") === \"light\" || kept(\"theme\") === \"dark\") document.documentElement.dataset.theme = kept(\"theme\");
by(\"dense\").addEventListener(\"click\", () => {
  thicken(!document.body.classList.contains(\"dense\"));
  keep(\"dense\", String(document.body.classList.contains(\"dense\")));
});
resize(1);
const KNOWN = { OFF: \"#5a5f6d\", UNKNOWN: \"#ddccdf\", STANDBY: \"#4faff3\", RAMPING: \"#f2c841\", READY: \"#1f6fd6\",
  RUNNING: \"#0ba860\", ERROR: \"#bb1c1c\" };
const NAMED = [[ALARM, KNOWN.ERROR], [/UNKNOWN|UNDEF|DEAD|LOST/, KNOWN.UNKNOWN],
  [/^NOT_|_NOT_|OFF|CLOSED|DISABLED/, KNOWN.OFF],
  [/RAMP|SWITCHING|STARTING|STOPPING|CONFIGURING|MOVING|WAIT|BUSY/, KNOWN.RAMPING],
  [/STANDBY|IDLE|INIT/, KNOWN.STANDBY],
  [/RUN|TAKING|PHYSICS/, KNOWN.RUNNING], [/READY|^ON$|_ON$|CONFIGURED/, KNOWN.READY]];
const KINDS = { ok: KNOWN.RUNNING, busy: KNOWN.RAMPING, off: KNOWN.OFF, alarm: KNOWN.ERROR, unknown: KNOWN.UNKNOWN };
const SPARE = [\"#6b8e23\", \"#008b8b\", \"#b565a7\", \"#a0522d\", \"#4682b4\", \"#556b2f\", \"#5f6fd0\"];
const PEOPLE = [\"#5633fc\", \"#b49010\", \"#15b0b1\", \"#f518fa\", \"#fd5203\", \"#9f6376\", \"#10721d\", \"#8a92c9\", \"#7d7e75\"];
const inks = new Map();
function inkOn(colour) {
  if (!inks.has(colour)) {
    const part = (at) => {
      const c = parseInt(colour.slice(at, at + 2), 16) / 255;
      return c <= 0.03928 ? c / 12.92 : ((c + 0.055) / 1.055) ** 2.4;
    };
    const light = 0.2126 * part(1) + 0.7152 * part(3) + 0.0722 * part(5);
    inks.set(colour, 1.05 / (light + 0.05) >= (light + 0.05) / 0.05 ? \"#ffffff\" : \"#000000\");
  }
  return inks.get(colour);
}
function stateColour(state) {
  const own = styleOf(state);
  if (own) return own[1] || KINDS[own[0]];
  const named = NAMED.find(([pattern]) => pattern.test(state));
  return KNOWN[state] || (named ? named[1] : SPARE[Math.max(0, tree.states.indexOf(state)) % SPARE.length]);
}
const personColour = (name) =>
  PEOPLE[Math.max(0, tree.operators.findIndex((o) => o.name === name)) % PEOPLE.length];
function initialsOf(names) {
  const made = new Map(), taken = new Set();
  names.forEach((name, place) => {
    const words = name.split(\"_\").filter((word) => word), letters = name.replaceAll(\"_\", \"\");
    const first = words.length > 1 ? words[0][0] + words[1][0] : letters.slice(0, 2);
    const more = [...letters].slice(1).map((letter) => letters[0] + letter);
    const is = [first, ...more].find((it) => !taken.has(it)) || letters[0] + (place + 1);
    taken.add(is);
    made.set(name, is);
  });
  return made;
}
function paint(e, state) {
  if (e.dataset.state === state) return;
  e.dataset.state = state;
  flag(e, \"unseen\", state === \"\");
  style(e, \"--c\", state === \"\" ? \"\" : stateColour(state));
  style(e, \"--t\", state === \"\" ? \"\" : inkOn(stateColour(state)));
}
let person = null;
function isBelow(d, holds) {
  let up = d;
  while (up && !holds(up)) up = domains.get(up.parent);
  return !!up;
}
function leaveOut() {
  const text = by(\"find\").value.trim().toUpperCase(), part = domains.get(location.hash.slice(1)), wanted = new Set();
  const isNamed = (d) => [d, ...d.devices].some((it) => it.name.includes(text)) ||
    !!text && [commander(d) || \"\", ...[d, ...d.devices].map(stateOf)].some((name) => name.includes(text));
  const isOf = (d) =>
    person === null || (commander(d) || \"free\") === person && commander(d) !== null;
  domains.forEach((d) => {
    if (part && !isBelow(d, (up) => up === part) || !isBelow(d, isNamed) || !isOf(d)) return;
    for (let up = d; up; up = domains.get(up.parent)) wanted.add(up.name);
  });
  domains.forEach((d) => flag(d.at.box, \"left-out\", !wanted.has(d.name)));
  flag(document.body, \"finding\", !!text || !!part || person !== null);
  document.querySelectorAll(\"#people button\").forEach((b) => {
    mark(b, \"aria-pressed\", String((b).dataset.person === person));
  });
}
function leaveOutAgain() {
  if (person !== null || by(\"find\").value) leaveOut();
  const bosses = new Set([...domains.values()].map((d) => commander(d) || \"free\"));
  document.querySelectorAll(\"#people button\").forEach((b) => {
    const name = (b).dataset.person;
    flag(b, \"idle\", !bosses.has(name) && name !== person);
  });
}
function peopleOf(items, place) {
  const initials = initialsOf(items.map(([name]) => name));
  place.replaceChildren(...items.map(([text, colour]) => {
    const b = make(\"button\"), i = make(\"i\", \"initials\", colour ? initials.get(text) : \"--\");
    b.type = \"button\";
    b.dataset.person = text;
    b.setAttribute(\"aria-pressed\", \"false\");
    i.setAttribute(\"aria-hidden\", \"true\");
    if (colour) { style(i, \"--c\", colour); style(i, \"--t\", inkOn(colour)); }
    b.append(i, text);
    b.addEventListener(\"click\", () => { person = person === text ? null : text; leaveOut(); });
    return b;
  }));
}
const folded = new Set((kept(\"folded\") || \"\").split(\" \").filter((name) => name));
function fold(d, is = !folded.has(d.name)) {
  if (is) folded.add(d.name); else folded.delete(d.name);
  keep(\"folded\", [...folded].join(\" \"));
  showFold(d);
}
const isFolded = (d) => folded.has(d.name);
function isHidden(d) {
  if (document.body.classList.contains(\"finding\")) return false;
  let up = domains.get(d.parent);
  while (up && !isFolded(up)) up = domains.get(up.parent);
  return !!up;
}
const isHot = (d) => d.children.some((c) => isAlarm(c) || c.devices.some(isAlarm) || !!c.silence || isHot(c));
function showFold(d) {
  if (!d.children.length) return;
  const is = isFolded(d);
  flag(d.at.box, \"folded\", is);
  flag(d.at.fold, \"hot\", is && isHot(d));
  mark(d.at.top, \"aria-expanded\", String(!is));
}
function readAnswer(text) {
  const [head, ...list] = JSON.parse(\"[\" + text.trimEnd().replaceAll(\"\\n\", \",\") + \"]\");
  list.forEach((it) => {
    const words = it.text.split(\" \"), isSince = words[0] === \"since\";
    it.words = isSince ? words.slice(2) : words;
    if (isSince) it.since = Number(words[1]);
  });
  return { head, list };
}
function keysOf({ words: [kind, first, second], since }) {
  if (kind === \"board\") return [\"board \" + first];
  if (kind === \"record\") return since === undefined ? [\"record \" + first, \"sign \" + first] : [\"record \" + first];
  if (kind === \"silent\" || kind === \"heard\") return [\"sign \" + first];
  if (kind === \"given\") return [\"order \" + first, \"given\"];
  if (kind === \"ended\") return [\"order \" + first];
  return kind === \"acknowledged\" ? [\"acknowledged \" + first + \" \" + second] : [];
}
function bookOf(list) {
  const of = new Map();
  list.forEach((it) => keysOf(it).forEach((key) => {
    const same = of.get(key);
    if (same) same.push(it); else of.set(key, [it]);
  }));
  return { list, of };
}
function joinBooks(early, late) {
  const of = new Map(early.of);
  late.of.forEach((list, key) => of.set(key, (of.get(key) || []).concat(list)));
  return { list: early.list.concat(late.list), of };
}
const entriesOf = (book, key) => book.of.get(key) || [];
function countFront(list, holds) {
  let low = 0, high = list.length;
  while (low < high) {
    const middle = (low + high) >> 1;
    if (holds(list[middle])) low = middle + 1; else high = middle;
  }
  return low;
}
const lastUpTo = (list, number) => list[countFront(list, (it) => it.number <= number) - 1];
function recordIn({ words: [, , kind, ...more] }) {
  const holder = kind === \"operator\" ? { operator: more[0] } : kind === \"domain\" ? { domain: more[0] } : null;
  const [epoch, last, work, outcome] = holder ? more.slice(1) : more;
  return { holder, epoch: Number(epoch), last: Number(last), busy: work === \"busy\", outcome: Number(outcome) };
}
function newsOf(entry, before) {
  const is = recordIn(entry), was = before && recordIn(before);
  const isHeldOn = !!was && JSON.stringify(was.holder) === JSON.stringify(is.holder) &&
    (is.holder === null || was.epoch === is.epoch);
  const isNoNews = !!was && is.last === was.last && is.busy === was.busy;
  return { ...is, hasHolder: !isHeldOn, hasCommand: is.last > 0 && !isNoNews };
}
const beforeIt = (book, entry) => lastUpTo(entriesOf(book, keysOf(entry)[0]), entry.number - 1);
const sinceOf = (entry) => entry.since ?? entry.at;
function isNews(book, entry) {
  if (entry.since !== undefined) return false;
  if (entry.words[0] !== \"silent\") return true;
  const before = beforeIt(book, entry);
  return !before || before.words[0] !== \"silent\";
}
function givenOf(book, entry) {
  const list = entriesOf(book, \"order \" + entry.words[1]), last = countFront(list, (it) => it.number <= entry.number);
  return list.slice(0, last).reverse().find((it) => it.words[0] === \"given\");
}
function isAbout(book, entry, names) {
  if (names === null || entry.words.some((word) => names.has(word))) return true;
  const order = entry.words[0] === \"ended\" ? givenOf(book, entry) : undefined;
  return !!order && order.words.some((word) => names.has(word));
}
const AT_ONCE = 10000, EACH = 1000, LONGEST = 10000;
const UTC_DAY = 86400000;
let pastBook = bookOf([]);
let newestHead = null;
let isWhole = false;
let historyFault = \"\";
const afterAnswer = [];
let wantedFrom = 0;
let wantedEnd = null;
let upto = 0, after = 0;
let begin = 0;
let isWanted = false, followed = -1;
let askedLast = 0;
function forgetHistory() {
  begin += 1;
  pastBook = bookOf([]);
  newestHead = null;
  isWhole = false;
  upto = after = 0;
  historyFault = \"\";
}
function reachesBack() {
  const first = pastBook.list[0];
  return newestHead !== null &&
    (after === 0 || newestHead.oldest !== undefined && first !== undefined && first.at < wantedFrom);
}
function wantTime(from, end) {
  const midnight = Math.max(0, Math.floor(from / UTC_DAY) * UTC_DAY);
  const isOther = end !== wantedEnd || end !== null && midnight < wantedFrom;
  if (isOther || end === null) wantedFrom = midnight;
  wantedEnd = end;
  if (isOther) forgetHistory(); else if (end === null) isWhole = reachesBack();
  if (isOther && isWanted) followHistory();
  return isOther;
}
function keptSince() {
  if (newestHead && newestHead.oldest !== undefined) return newestHead.oldest;
  return isWhole && pastBook.list.length ? pastBook.list[0].at : 0;
}
async function fetchEntries(query) {
  const gone = new AbortController(), bell = setTimeout(() => gone.abort(), LONGEST);
  try {
    const answer = await fetch(\"/api/history\" + query, { signal: gone.signal, cache: \"no-store\" });
    return answer.ok ? readAnswer(await answer.text()) : answer.status;
  } catch (refused) {
    return 0;
  } finally { clearTimeout(bell); }
}
const isTorn = (head) => newestHead !== null && (head.count < upto || upto > 0 && head.after > upto);
function takeNewer({ head, list }) {
  const isFirst = newestHead === null;
  if (isTorn(head)) { forgetHistory(); return; }
  if (isFirst) after = head.after;
  newestHead = head;
  upto = Math.min(head.upto, head.count);
  if (list.length || isFirst) pastBook = joinBooks(pastBook, bookOf(list));
  isWhole = reachesBack();
}
function takeEarlier({ head, list }, asked) {
  pastBook = joinBooks(bookOf(list.filter((it) => it.number <= after)), pastBook);
  after = head.after > asked ? 0 : asked;
  isWhole = reachesBack();
}
function takeUntil({ head, list }, end) {
  const isFirst = newestHead === null, looked = Math.min(head.upto, head.count);
  if (isTorn(head)) { forgetHistory(); return; }
  newestHead = head;
  if (isFirst && head.oldest === undefined) return;
  const isBeyond = list.length < looked - head.after || list.some((it) => it.at > end);
  upto = looked;
  pastBook = joinBooks(pastBook, bookOf(list.filter((it) => it.at <= end)));
  isWhole = isBeyond || upto >= head.count;
}
function nextUntilNow() {
  const isNewer = newestHead === null || isWhole || askedLast + EACH < performance.now();
  const from = Math.max(0, after - AT_ONCE);
  if (!isNewer) return { query: \"?after=\" + from, take: (answer) => takeEarlier(answer, from) };
  return { query: newestHead === null ? \"\" : \"?after=\" + upto, take: (answer) => {
    askedLast = performance.now();
    takeNewer(answer);
  } };
}
function nextUntil(end) {
  if (isWhole) return null;
  const to = \"&to=\" + Math.max(0, Math.floor(end / 1000)), first = \"?from=\" + wantedFrom / 1000;
  return { query: (newestHead === null ? first : \"?after=\" + upto) + to, take: (answer) => takeUntil(answer, end) };
}
async function askOnce() {
  const mine = begin, next = wantedEnd === null ? nextUntilNow() : nextUntil(wantedEnd);
  if (!next) return EACH;
  const answer = await fetchEntries(next.query);
  if (mine !== begin) return 0;
  historyFault = answer === 404 ? \"this screen keeps no history\" :
    typeof answer === \"number\" ? \"the screen does not answer\" : \"\";
  if (answer === 404) isWanted = false;
  if (typeof answer === \"number\") return EACH;
  next.take(answer);
  return isWhole && newestHead !== null && (wantedEnd !== null || upto >= newestHead.count) ? EACH : 0;
}
async function followHistory() {
  isWanted = true;
  if (followed === begin) return;
  const mine = begin;
  followed = mine;
  try {
    while (isWanted && mine === begin) {
      const pause = await askOnce();
      if (mine !== begin) break;
      afterAnswer.forEach((more) => more());
      await new Promise((go) => { setTimeout(go, pause); });
    }
  } finally { if (followed === mine) followed = -1; }
  if (isWanted) followHistory();
}
function leaveHistory() { isWanted = false; }
afterBuild.push(forgetHistory);
afterRestart.push(forgetHistory);
const CODE_WORDS = { 0: \"done\", 1: \"a domain on the way does not accept the action\",
  2: \"the target is not below the domain\", 3: \"the child is held and in that mode already\", 4: \"the child is not held\",
  5: \"another one holds the domain\", 6: \"a child on the way is not held or is manual\",
  7: \"a million commands were given to a child under one grant\", 8: \"ended, and how was not seen\",
  9: \"the domain's epochs are used up\", 21: \"the operator does not hold the domain\",
  22: \"a command on the domain is not answered yet\",
  23: \"the operator holds the domain already, or takes it or gives it back\",
  24: \"a million commands were given under this grant\", 25: \"the operator holds or waits for sixteen domains\",
  26: \"nothing of that name is there\", 31: \"the store did not save it\", 32: \"the station has stopped\",
  33: \"the node is out of memory\" };
function holderWords(entry) {
  const holder = recordIn(entry).holder;
  return !holder ? \"free\" : holder.operator || \"domain \" + holder.domain;
}
function recordWords(entry, before) {
  const name = entry.words[1], news = newsOf(entry, before), holder = holderWords(entry);
  return [...(news.hasHolder ? [name + (holder === \"free\" ? \" is free\" : \" held by \" + holder)] : []),
    ...(news.hasCommand ? [\"command \" + news.last + \" of \" + name +
      (news.busy ? \" is at work\" : \" ended with \" + news.outcome)] : [])].join(\", \") || name + \" is as before\";
}
function orderIn(order) {
  const [, , verb, ...more] = order ? order.words : [\"\", \"\", \"\"];
  return verb === \"order\" ? [more[0], more.slice(1).join(\" \")] : [\"\", [verb, ...more].join(\" \")];
}
function endIn(entry) {
  const words = entry.words.slice(2), code = words[words.length - 1];
  if (words.length === 2 && words[0] === \"begun\") return \"it has begun and can't be withdrawn\";
  if (words.length === 2 && words[0] === \"withdrawn\") return \"done\";
  if (words[0] !== \"told\" || !/^\\d+$/.test(code)) return words.join(\" \");
  return \"ended with \" + code + (CODE_WORDS[code] ? \": \" + CODE_WORDS[code] : \"\");
}
function orderWords(book, entry, number) {
  const order = givenOf(book, { ...entry, words: [\"ended\", number] }), [operator, which] = orderIn(order);
  return !order ? \"order \" + number : operator ? which + \" of \" + operator : withdrawalWords(book, order);
}
const withdrawalWords = (book, order) => \"withdrawal of \" + orderWords(book, order, order.words[3]);
function givenWords(book, entry) {
  const [operator, order] = orderIn(entry);
  return operator ? operator + \" ordered \" + order : withdrawalWords(book, entry) + \" was asked for\";
}
function endedWords(book, entry) {
  const end = endIn(entry);
  return orderWords(book, entry, entry.words[1]) + (end.startsWith(\"ended with \") ? \" \" : \": \") + end;
}
function sayEntry(book, entry) {
  const [kind, first, second, third] = entry.words;
  if (kind === \"board\") return first + \" is \" + third;
  if (kind === \"record\") return recordWords(entry, beforeIt(book, entry));
  if (kind === \"silent\") return \"station of \" + first + \" is silent\";
  if (kind === \"heard\") return \"station of \" + first + \" is heard again\";
  if (kind === \"given\") return givenWords(book, entry);
  if (kind === \"ended\") return endedWords(book, entry);
  return kind === \"acknowledged\" ? third + \" acknowledged \" + first + \" \" + second : entry.text;
}
function stretchesIn(list, valueOf, { from, to }) {
  const first = countFront(list, (it) => it.at <= from), begin = list[first - 1];
  const made = [{ value: begin ? valueOf(begin) : \"\", from, to, count: 1 }];
  for (const it of list.slice(first, countFront(list, (other) => other.at < to))) {
    const last = made[made.length - 1], value = valueOf(it);
    if (value !== last.value) {
      last.to = it.at;
      made.push({ value, from: it.at, to, count: 1 });
    }
  }
  return made.filter((it) => it.to > it.from);
}
const statesOf = (book, name, span) =>
  stretchesIn(entriesOf(book, \"board \" + name), (it) => it.words[3], span);
const holdersOf = (book, name, span) => stretchesIn(entriesOf(book, \"record \" + name), holderWords, span);
const isSilence = (it) => it.words[0] === \"silent\";
function silenceEntries(book, station) {
  const names = [...domains.values()].filter((d) => d.station === station).map((d) => d.name);
  return names.flatMap((name) => entriesOf(book, \"sign \" + name)
    .filter((it, at, list) => isSilence(it) !== (at > 0 && isSilence(list[at - 1]))))
    .sort((a, b) => a.number - b.number);
}
const silentTimes = (book, station, span) =>
  stretchesIn(silenceEntries(book, station), (it) => isSilence(it) ? \"silent\" : \"heard\", span)
    .filter((it) => it.value === \"silent\");
function worse(one, other) {
  const isHot = (it) => kindOf(it.value) === \"alarm\";
  if (isHot(one) !== isHot(other)) return isHot(one) ? one.value : other.value;
  return one.to - one.from >= other.to - other.from ? one.value : other.value;
}
function thinned(list, least) {
  const made = [];
  list.forEach((it) => {
    const last = made[made.length - 1], isShort = it.to - it.from < least;
    if (!last || !isShort || last.to - last.from >= least) { made.push({ ...it }); return; }
    last.value = worse(last, it);
    last.to = it.to;
    last.count += it.count;
  });
  return made;
}
const within = (list, { from, to }) =>
  list.slice(countFront(list, (it) => it.at < from), countFront(list, (it) => it.at <= to));
function eachNews(book, key, { from, to }, each) {
  const list = entriesOf(book, key), end = countFront(list, (it) => it.at <= to);
  for (let place = countFront(list, (it) => it.at < from); place < end; place += 1) {
    if (isNews(book, list[place])) each(list[place], list[place - 1]);
  }
}
function marksOf(book, name, span) {
  const runs = [], marks = [];
  const add = (kind, it) =>
    (kind === \"run\" ? runs : marks).push({ kind, at: it.at, entry: it });
  eachNews(book, \"record \" + name, span, (it, before) => {
    const news = newsOf(it, before);
    if (before && news.hasHolder) add(\"grant\", it);
    if (before && news.hasCommand && !news.busy) add(news.outcome ? \"fault\" : \"run\", it);
  });
  eachNews(book, \"board \" + name, span, (it, before) => {
    const wasHot = !!before && kindOf(before.words[3]) === \"alarm\";
    if (kindOf(it.words[3]) === \"alarm\" && !wasHot) add(\"trip\", it);
  });
  within(entriesOf(book, \"given\"), span).forEach((it) => { if (it.words.slice(3).includes(name)) add(\"order\", it); });
  return [...runs, ...marks];
}
const MINUTE = 60000, DAY = 86400000;
const STEPS = [1, 2, 5, 10, 15, 30, 60, 120, 180, 360, 720, 1440, 2880, 10080].map((it) => it * MINUTE);
const two = (it) => String(it).padStart(2, \"0\");
function dayTime(at) {
  const it = new Date(at);
  return two(it.getHours()) + \":\" + two(it.getMinutes()) + \":\" + two(it.getSeconds());
}
function dayOf(at) {
  const it = new Date(at);
  return it.getFullYear() + \"-\" + two(it.getMonth() + 1) + \"-\" + two(it.getDate());
}
const dayMinute = (at) => dayOf(at) + \" \" + dayTime(at).slice(0, 5);
const timeBeside = (at, other) => (dayOf(at) === dayOf(other) ? \"\" : dayOf(at) + \" \") + dayTime(at);
function lengthOf(ms) {
  const s = Math.round(ms / 1000);
  return Math.floor(s / 3600) + \":\" + two(Math.floor(s / 60) % 60) + \":\" + two(s % 60);
}
function axisOf({ from, to }) {
  const step = STEPS.find((it) => (to - from) / it <= 8) || STEPS[STEPS.length - 1] * Math.ceil((to - from) / DAY / 56);
  const off = -MINUTE * new Date(to).getTimezoneOffset(), made = [];
  for (let at = Math.ceil((from + off) / step) * step - off; at < to; at += step) {
    const isDay = step >= DAY || to - from > DAY && dayTime(at) === \"00:00:00\";
    made.push({ at, text: isDay ? dayOf(at) : dayTime(at).slice(0, 5) });
  }
  return made;
}
const MOST_ROWS = 40;
let hours = [1, 24, 168].find((it) => kept(\"past-hours\") === String(it)) ?? 8;
let chosenEnd = null;
let subject = \"\";
let stayingEnd = null;
function chosenSpan() {
  const list = pastBook.list, last = list.length ? list[list.length - 1].at : 0;
  const to = chosenEnd ?? stayingEnd ?? Math.max(Date.now(), last + 1);
  return { from: to - hours * HOUR, to };
}
const wantChosen = () => wantTime(chosenSpan().from, chosenEnd);
function chooseHours(next) {
  hours = next;
  keep(\"past-hours\", String(next));
}
function chooseEnd(next) { chosenEnd = next; }
function chooseSubject(name) { subject = name; }
function keepEnd(is) { stayingEnd = is ? stayingEnd ?? chosenSpan().to : null; }
function keptLater() {
  const first = keptSince();
  return first > chosenSpan().from ? first : 0;
}
function shownSpan() {
  const { from, to } = chosenSpan(), first = keptLater();
  return { from: first && first < to ? first : from, to };
}
function knownSpan() {
  const span = shownSpan(), list = pastBook.list;
  if (chosenEnd === null || isWhole) return span;
  return { from: span.from, to: Math.max(span.from, list.length ? list[list.length - 1].at : 0) };
}
const timeWithin = (at) => timeBeside(at, chosenEnd === null ? chosenSpan().to : Date.now());
const namesBelow = (d) => [d.name, ...d.devices.map((it) => it.name), ...d.children.flatMap(namesBelow)];
function wantedNames() {
  if (!subject) return null;
  const d = domains.get(subject);
  return new Set(d ? namesBelow(d) : [subject]);
}
function shownEntries() {
  const names = wantedNames();
  return within(pastBook.list, shownSpan()).filter((it) => isNews(pastBook, it) && isAbout(pastBook, it, names));
}
function rowNames() {
  const d = domains.get(subject), all = [...domains.values()];
  const isHeld = (it) =>
    entriesOf(pastBook, \"record \" + it.name).some((entry) => entry.words[3] === subject);
  const rows = d ? [d, ...d.children, ...d.devices] : devices.has(subject) ? [devices.get(subject)] :
    subject ? all.filter(isHeld) : all.filter((it) => !it.parent).flatMap((it) => [it, ...it.children]);
  return rows.slice(0, MOST_ROWS).map((it) => it.name);
}
function placeOf(at) {
  const entry = pastBook.list[countFront(pastBook.list, (it) => it.at <= at) - 1];
  return { number: entry ? entry.number : 0, at, isOfTime: true };
}
const lastPlace = () => chosenEnd === null ? null : placeOf(chosenEnd);
function groupOf(d) {
  let at = d;
  while (at.parent && domains.get(at.parent).parent) at = domains.get(at.parent);
  return at.name;
}
const mayCount = (child, parent) => !child.told || !!holderOf(child) && holderOf(child).domain === parent.name;
function alarmsAbove(d) {
  const reached = [];
  for (let at = d; at && isAlarm(at); at = mayCount(at, domains.get(at.parent) || at) ? domains.get(at.parent) : null) {
    reached.push(at.name);
  }
  return reached;
}
const isOwnCause = (d) =>
  isAlarm(d) && !d.devices.some(isAlarm) && !d.children.some((c) => isAlarm(c) && mayCount(c, d));
function tripsOf() {
  return [...domains.values()].flatMap((d) => {
    const of = { isSilence: false, group: groupOf(d), domain: d.name };
    const trips = d.devices.filter(isAlarm).map((device) => ({ ...of, key: \"device \" + device.name, name: device.name,
      text: device.name + \" \" + stateOf(device), at: device.shown.at, follows: alarmsAbove(d) }));
    return isOwnCause(d) ? [...trips, { ...of, key: \"domain \" + d.name, name: d.name, text: d.name + \" \" + stateOf(d),
      at: d.shown.at, follows: alarmsAbove(d).slice(1) }] : trips;
  });
}
function silencesOf(heard, time) {
  const seen = new Set();
  return [...domains.values()].flatMap((d) => {
    const silence = silenceOf(d, heard, time);
    if (seen.has(d.station)) return [];
    seen.add(d.station);
    if (silence === null || (silence < 0 && time <= MOST_SILENCE)) return [];
    return [{ key: \"station \" + d.station, isSilence: true, group: groupOf(d), domain: d.name, name: d.station,
      text: d.station + (silence < 0 ? \" not heard\" : \" silent \" + age(silence)), at: heard.get(d.station) ?? null,
      follows: [...domains.values()].filter((other) => other.station === d.station).map((other) => other.name) }];
  });
}
const alarmsOf = (heard, time) => [...tripsOf(), ...silencesOf(heard, time)];
function grouped(alarms) {
  const sorted = [...alarms].sort((a, b) => (b.at ?? -1) - (a.at ?? -1) || (a.key < b.key ? -1 : 1));
  const groups = new Map(sorted.map((it) => [it.group, ([])]));
  sorted.forEach((it) => groups.get(it.group).push(it));
  return [...groups];
}
function unknownWords() {
  const lost = [...domains.values()].filter((d) => isUnknown(d) || d.devices.some(isUnknown));
  const all = ([[domains, \" domain\"], [devices, \" device\"]]);
  const counts = all.map(([them, name]) => {
    const count = [...them.values()].filter(isUnknown).length;
    return count ? count + \" of \" + them.size + name + (them.size > 1 ? \"s\" : \"\") : \"\";
  }).filter((words) => words);
  if (!counts.length) return \"\";
  return \"UNKNOWN or not seen: \" + counts.join(\", \") + \" (\" + [...new Set(lost.map(groupOf))].join(\", \") + \")\";
}
let opened = null;
let facts = null;
function open(domain) {
  const more = by(\"more\"), name = make(\"h2\", \"\", domain), shut = make(\"button\", \"tool\", \"close (Esc)\");
  const head = make(\"div\");
  opened = domain;
  name.id = \"more-name\";
  head.id = \"more-head\";
  head.append(name, shut);
  facts = make(\"div\");
  shut.type = \"button\";
  shut.autofocus = true;
  shut.addEventListener(\"click\", () => more.close());
  const alone = make(\"a\", \"tool\", \"show this part alone\");
  alone.href = \"#\" + domain;
  alone.addEventListener(\"click\", () => more.close());
  more.replaceChildren(head, facts, alone, ...extras.map((extra) => extra(domains.get(domain))));
  fill();
  if (!more.open) more.showModal();
}
function modeWords(d) {
  const holder = holderOf(d), mode = modeSayers.map((say) => say(d)).find((said) => said);
  if (!d.parent || d.told && !(holder && holder.domain)) return \"has none: it is not held by what is above\";
  return mode || \"mode unknown\";
}
function rows(d) {
  const told = d.told, shown = d.shown, boss = commander(d), holder = told && told.holder;
  return [
    [d.silence === null ? \"state\" : \"last seen\", shown ? shown.state + \" (\" + versionOf(d) + \", seen for \" +
      age(now() - shown.at) + \")\" : \"not seen\"],
    [\"held by\", !told ? \"not heard\" : !holder ? \"nobody\" : holder.operator || \"domain \" + holder.domain],
    [\"commanded by\", boss === null ? \"not told\" : boss || \"nobody\"],
    [\"mode\", modeWords(d)],
    [\"epoch\", told ? String(told.epoch) : \"\"],
    [\"last command\", !told || !told.last ? \"none\" : told.last +
      (told.busy ? \", at work\" : \", ended with \" + told.outcome)],
    [\"kept by\", \"station \" + d.station],
    [\"above it\", d.parent || \"nothing\"],
    [\"below it\", d.children.map((child) => child.name).join(\" \") || \"nothing\"],
    [\"heard\", told ? age(now() - told.heard) + \" ago\" : \"never\"],
  ];
}
function tableOf(list) {
  const table = make(\"table\"), head = make(\"tr\");
  [\"device\", \"state\", \"version\", \"seen for\"].forEach((text) => {
    const th = make(\"th\", \"\", text);
    th.scope = \"col\";
    head.append(th);
  });
  table.append(head, ...list.map((device) => {
    const row = make(\"tr\"), cell = make(\"td\"), state = make(\"span\", \"state\", stateOf(device) || \"not seen\");
    const shown = device.shown;
    paint(state, stateOf(device));
    cell.append(state);
    row.append(make(\"td\", \"\", device.name), cell, make(\"td\", \"\", versionOf(device)),
      make(\"td\", \"\", shown ? age(now() - shown.at) : \"\"));
    return row;
  }));
  return table;
}
function fill() {
  const d = domains.get(opened), list = make(\"dl\");
  if (!d || !picture) return;
  rows(d).forEach(([key, value]) => list.append(make(\"dt\", \"\", key), make(\"dd\", \"\", value)));
  flag(facts, \"old\", d.silence !== null);
  facts.replaceChildren(list, ...(d.devices.length ? [tableOf(d.devices)] : []));
}
by(\"more\").addEventListener(\"close\", () => {
  if (by(\"more\").open) return;
  let was = domains.get(opened);
  opened = null;
  while (was && isHidden(was)) was = domains.get(was.parent);
  if (was) enter(was.at.top);
});
const shelf = new Map();
function shelve(key, minutes) {
  shelf.set(key, Date.now() + 60000 * minutes);
  save();
}
function unshelve(key) {
  shelf.delete(key);
  save();
}
function save() { keep(\"shelf\", JSON.stringify([...shelf])); }
function shelved() {
  shelf.forEach((until, key) => { if (until <= Date.now()) unshelve(key); });
  return [...shelf];
}
const isShelved = (key) => shelf.has(key) && shelf.get(key) > Date.now();
try {
  JSON.parse(kept(\"shelf\") || \"[]\").forEach(([key, until]) => shelf.set(key, until));
} catch (faulty) { }
let audio = null;
let isLoud = kept(\"sound\") === \"on\";
let shownCount = 0, isLost = false;
let shownTime = \"\";
function showLost(is) {
  if (is === isLost) return;
  isLost = is;
  if (is) document.title = \"NO CONTACT\"; else if (tree) showCount(shownCount);
}
function showCount(count) {
  shownCount = count;
  document.title = shownTime || (count ? \"(\" + count + \") \" : \"\") + \"tree \" + tree.tree;
  const text = count > 99 ? \"99\" : String(count);
  const icon = \"<svg xmlns='http://www.w3.org/2000/svg' viewBox='0 0 16 16'>\" +
    \"<rect width='16' height='16' rx='4' fill='\" + (count ? \"#bb1c1c\" : \"#0ba860\") + \"'/>\" + (count ? \"<text x='8' \" +
    \"y='12.5' font-size='12' font-family='sans-serif' font-weight='bold' text-anchor='middle' fill='#fff'>\" + text +
    \"</text>\" : \"\") + \"</svg>\";
  by(\"icon\").href = \"data:image/svg+xml,\" + encodeURIComponent(icon);
}
function showTime(words) {
  shownTime = words;
  if (!isLost && tree) showCount(shownCount);
}
function beLoud(is) {
  isLoud = is;
  keep(\"sound\", is ? \"on\" : \"off\");
  if (is) ring();
}
function ring() {
  if (!isLoud) return;
  audio = audio || new AudioContext();
  if (audio.state === \"suspended\") audio.resume();
  [[880, 0], [660, .18]].forEach(([pitch, after]) => {
    const tone = audio.createOscillator(), volume = audio.createGain(), begin = audio.currentTime + after;
    tone.frequency.value = pitch;
    volume.gain.setValueAtTime(.2, begin);
    volume.gain.exponentialRampToValueAtTime(.001, begin + .16);
    tone.connect(volume).connect(audio.destination);
    tone.start(begin);
    tone.stop(begin + .17);
  });
}
const MOST_LISTED = 40, MOST_READ = 3;
let since = null;
const knowers = [];
const acknowledgers = [];
let listed = \"\", isAll = false;
let texts = new Map();
function forgetAlarms() { since = null; listed = \"\"; }
const clock = (at) => at === null ? \"--:--:--\" : dateOf(at).toLocaleTimeString(\"en-GB\");
function announce(alarms, fresh, unknown) {
  if (fresh.length) {
    const names = fresh.slice(0, MOST_READ).map((it) => it.isSilence ? \"station \" + it.name + \" is silent\" : it.text);
    const more = fresh.length > MOST_READ ? \" and \" + (fresh.length - MOST_READ) + \" more\" : \"\";
    set(by(\"said\"), names.join(\", \") + more);
    ring();
  } else if (!alarms.length) set(by(\"said\"), unknown || \"no alarms\");
}
function liveAlarms(all, unknown) {
  const old = since;
  since = new Map(all.map((it) => [it.key, old && old.has(it.key) ? old.get(it.key) : it.at]));
  all.forEach((it) => { it.at = since.get(it.key); });
  shelved();
  const alarms = all.filter((it) => !isShelved(it.key));
  announce(alarms, old ? alarms.filter((it) => !old.has(it.key)) : [], unknown);
  return alarms;
}
function tellAlarms(heard, time) {
  const all = alarmsOf(heard, time), unknown = unknownWords();
  all.forEach((it) => { it.knower = knowers.map((tell) => tell(it)).find((name) => name) || \"\"; });
  const alarms = isPast ? all : liveAlarms(all, unknown), off = isPast ? [] : shelved();
  const isHiding = alarms.length < all.length;
  const groups = grouped(alarms), hidden = isAll ? 0 : Math.max(0, alarms.length - MOST_LISTED);
  const keys = groups.map(([, list]) =>
    list.map((it) => [it.key, it.isSilence ? \"\" : it.text, it.follows, it.knower, isPast ? it.at : 0]));
  const shown = JSON.stringify([keys, hidden, unknown, off, isLoud, isHiding, isPast]);
  if (shown !== listed) {
    listed = shown;
    const calm = isHiding ? \"no alarms but shelved ones\" : unknown ? \"no alarm is known\" : \"no alarms\";
    draw(alarms.length ? countWords(alarms) : calm, groups, hidden, unknown, off);
    if (!isPast) showCount(alarms.length);
  }
  alarms.forEach((it) => { if (it.isSilence && texts.has(it.key)) set(texts.get(it.key), it.text); });
}
function countWords(alarms) {
  const silent = alarms.filter((it) => it.isSilence).length;
  return alarms.length - silent + \" in alarm, \" + silent + \" silent\";
}
function button(name, text, deed) {
  const b = make(\"button\", name, text);
  b.type = \"button\";
  b.addEventListener(\"click\", deed);
  return b;
}
function rowOf(it) {
  const li = make(\"li\", \"alarm\" + (it.isSilence ? \" warn\" : \"\") + (it.knower ? \" known\" : \"\"));
  const lead = button(\"\", \"\", () => open(it.domain)), known = it.knower ? \"acknowledged by \" + it.knower : \"\";
  const text = make(\"b\", \"\", it.text), names = it.follows.join(\" \");
  const words = it.isSilence ? it.follows.length > 1 ? \"keeps \" + names : \"\" : names ? \"so \" + names : \"\";
  lead.dataset.alarm = it.domain;
  lead.dataset.key = it.key;
  lead.title = words;
  lead.append(make(\"time\", \"\", clock(it.at)), \" \", text, ...(known ? [\" \", make(\"i\", \"\", known)] : []),
    ...(words ? [\" \", make(\"small\", \"\", words)] : []));
  texts.set(it.key, text);
  if (isPast) {
    li.append(lead);
    return li;
  }
  const off = button(\"small\", \"shelve\", () => { shelve(it.key, Number(by(\"shelf-time\").value)); });
  off.setAttribute(\"aria-label\", \"shelve \" + it.name);
  li.append(lead, ...acknowledgers.filter(() => !known).map((deed) => {
    const taken = button(\"small\", \"acknowledge\", () => deed([it.key]));
    taken.setAttribute(\"aria-label\", \"acknowledge \" + it.name);
    taken.dataset.key = it.key;
    return taken;
  }), off);
  return li;
}
function listOf(groups, most) {
  const ul = make(\"ul\");
  let left = most;
  groups.forEach(([name, alarms]) => {
    const list = make(\"ul\"), head = make(\"h3\", \"\", name), group = make(\"li\");
    if (left <= 0) return;
    head.append(make(\"span\", \"\", String(alarms.length)));
    list.append(...alarms.slice(0, left).map(rowOf));
    left -= alarms.length;
    group.append(head, list);
    ul.append(group);
  });
  return ul;
}
function shelfTimes(chosen) {
  const select = make(\"select\");
  select.id = \"shelf-time\";
  select.setAttribute(\"aria-label\", \"for how long an alarm is shelved\");
  select.append(...[[\"10\", \"10 min\"], [\"60\", \"1 h\"], [\"480\", \"8 h\"]].map(([value, text]) => {
    const option = make(\"option\", \"\", text);
    option.value = value;
    option.selected = value === chosen;
    return option;
  }));
  return select;
}
function shelfOf(off) {
  const box = make(\"details\", \"shelved\"), list = make(\"ul\"), old = by(\"shelved\");
  box.id = \"shelved\";
  box.open = !!old && old.open;
  box.append(make(\"summary\", \"\", off.length + \" shelved\"), list);
  list.append(...off.map(([key, until]) => {
    const li = make(\"li\", \"alarm\"), name = key.slice(key.indexOf(\" \") + 1);
    const back = button(\"small\", \"list\", () => unshelve(key));
    back.setAttribute(\"aria-label\", \"list \" + name + \" again\");
    li.append(make(\"span\", \"\", name + \" until \" + new Date(until).toLocaleTimeString(\"en-GB\")), back);
    return li;
  }));
  return box;
}
function draw(heading, groups, hidden, unknown, off) {
  const focus = document.activeElement && (document.activeElement).dataset.key;
  const head = make(\"div\", \"alarm-head\"), sound = button(\"tool\", \"sound\", () => beLoud(!isLoud));
  const count = groups.reduce((sum, [, list]) => sum + list.length, 0), old = by(\"shelf-time\");
  sound.id = \"sound\";
  sound.title = \"a tone for each new alarm, once somebody has clicked on this page\";
  mark(sound, \"aria-pressed\", String(isLoud));
  texts = new Map();
  const fresh = groups.flatMap(([, list]) => list.filter((it) => !it.knower).map((it) => it.key));
  head.append(make(\"h2\", \"\", heading), ...(fresh.length && !isPast ? acknowledgers.map((deed) =>
    button(\"tool\", \"acknowledge all \" + fresh.length, () => deed(fresh))) : []),
    ...(count && !isPast ? [make(\"span\", \"\", \"shelve for\"), shelfTimes(old ? old.value : \"10\")] : []), sound);
  by(\"alarms\").replaceChildren(head, listOf(groups, hidden ? MOST_LISTED : count),
    ...(hidden ? [button(\"tool\", \"and \" + hidden + \" more\", () => { isAll = true; })] : []),
    ...(isAll && count > MOST_LISTED ? [button(\"tool\", \"the newest alone\", () => { isAll = false; })] : []),
    ...(unknown ? [make(\"p\", \"unknown\", unknown)] : []), ...(off.length ? [shelfOf(off)] : []));
  const again = focus && [...by(\"alarms\").querySelectorAll(\"[data-key]\")].find((b) => b.dataset.key === focus);
  if (again) again.focus();
}
const CLASSES = [\"root\", \"card\", \"part\", \"group\"];
function placeInTree(top, deep, beside, d) {
  const place = { role: \"treeitem\", \"aria-level\": deep + 1, \"aria-setsize\": beside.length,
    \"aria-posinset\": beside.indexOf(d) + 1, tabindex: -1 };
  Object.entries(place).forEach(([key, value]) => top.setAttribute(key, String(value)));
}
function boxOf(d, deep, beside) {
  const box = make(\"section\", CLASSES[Math.min(deep, 3)]), top = make(\"button\", \"top\"), dots = make(\"span\", \"devices\");
  top.type = \"button\";
  top.dataset.domain = d.name;
  placeInTree(top, deep, beside, d);
  box.setAttribute(\"role\", \"none\");
  const at = { box, top, name: make(\"span\", \"name\", d.name), state: make(\"span\", \"state\", \"\"),
    who: make(\"span\", \"who\"), mode: make(\"span\", \"mode\"), note: make(\"span\", \"note\"), fold: make(\"span\", \"fold\") };
  d.devices.forEach((device) => { device.dot = make(\"i\"); dots.append(device.dot); });
  dots.setAttribute(\"aria-hidden\", \"true\");
  at.fold.setAttribute(\"aria-hidden\", \"true\");
  top.append(...(d.children.length ? [at.fold] : []), at.name, ...(d.devices.length ? [dots] : []),
    ...(deep < 2 ? [at.state, at.who] : [at.who, at.state]), at.mode, at.note);
  top.addEventListener(\"click\", (click) => {
    if (at.fold.contains(click.target)) fold(d); else open(d.name);
  });
  box.append(top);
  d.at = at;
  if (d.children.length) {
    const inside = make(\"div\", deep === 0 ? \"kids cards\" : \"kids\");
    inside.setAttribute(\"role\", \"none\");
    inside.append(...d.children.map((child) => boxOf(child, deep + 1, d.children)));
    box.append(inside);
  }
  flag(box, \"own\", !!d.parent && domains.get(d.parent).station !== d.station);
  flag(box, \"small\", deep === 0 && d.children.every((child) => child.children.length === 0));
  return box;
}
function legendOf(items, place) {
  place.replaceChildren(...items.map(([text, colour]) => {
    const b = make(\"b\"), i = make(\"i\");
    if (colour) i.style.setProperty(\"--c\", colour);
    b.append(i, text);
    return b;
  }));
}
function describe(d, silence) {
  const boss = commander(d), words = [d.name, stateOf(d) || \"not seen\"];
  words.push(boss === null ? \"commander not told\" : boss === \"\" ? \"free\" : \"commanded by \" + boss);
  if (silence !== null) words.push(silence < 0 ? \"not heard yet\" : \"silent for \" + age(silence));
  if (d.told && d.told.busy) words.push(\"at work\");
  if (markedMode(d)) words.push(markedMode(d));
  return words.join(\", \");
}
const markedMode = (d) => modeSayers.map((say) => say(d)).find((mode) => mode === \"manual\" || mode === \"ignored\") || \"\";
function usualState() {
  const counts = new Map();
  domains.forEach((d) => { if (d.silence === null) counts.set(stateOf(d), (counts.get(stateOf(d)) || 0) + 1); });
  return [...counts].reduce((most, it) => it[1] > most[1] ? it : most, [\"\", 0])[0];
}
function showDomain(d, heard, time, usual) {
  const at = d.at, state = stateOf(d), boss = commander(d), silence = silenceOf(d, heard, time);
  const byDomain = d.told && d.told.holder && d.told.holder.domain;
  paint(at.state, state);
  set(at.state, state || \"NOT SEEN\");
  const colour = boss ? personColour(boss) : \"\";
  style(at.box, \"--edge\", colour || \"var(--line)\");
  style(at.who, \"--who\", colour);
  style(at.who, \"--whot\", colour ? inkOn(colour) : \"\");
  set(at.who, byDomain ? \"\" : boss === null ? \"\" : boss || \"free\");
  set(at.mode, markedMode(d));
  flag(at.box, \"apart\", boss !== null && !byDomain && !!d.parent);
  flag(at.box, \"silent\", silence !== null);
  flag(at.top, \"busy\", !!(d.told && d.told.busy) && silence === null);
  set(at.note, silence === null ? \"\" : silence < 0 ? \"not heard yet\" : \"silent \" + age(silence));
  label(at.top, describe(d, silence));
  d.silence = silence;
  showFold(d);
  const up = d.parent && domains.get(d.parent);
  const isCalm = silence === null && !d.devices.some(isAlarm);
  flag(at.box, \"same\", !!up && isCalm && state === stateOf(up));
  flag(at.box, \"usual\", isCalm && state === usual && !isAlarm(d) && !isUnknown(d));
}
function showDevice(d) {
  const state = stateOf(d);
  paint(d.dot, state);
  const title = d.name + \" \" + (state || \"not seen\");
  if (d.dot.title !== title) d.dot.title = title;
  set(d.dot, isAlarm(d) ? \"!\" : isUnknown(d) ? \"?\" : \"\");
}
const MOST_LOGGED = 2000;
let log = [];
let isLogOld = true;
let before = [];
const AGAIN = 3000;
function note(text, ms) {
  const at = Date.now() - Math.max(0, liveNow() - ms);
  if (before.some((it) => it.text === text && Math.abs(it.at - at) < AGAIN)) return;
  log.push({ text, at });
  if (log.length > 2 * MOST_LOGGED) log = log.slice(-MOST_LOGGED);
  isLogOld = true;
}
function beginLog() {
  before = keptLog();
  log = [...before];
  isLogOld = true;
  setTimeout(() => { before = []; }, AGAIN);
}
function keptLog() {
  try {
    const old = JSON.parse(sessionStorage.getItem(\"log\") || \"{}\");
    return old.tree === tree.tree ? old.log : [];
  } catch (faulty) { return []; }
}
addEventListener(\"pagehide\", () => {
  try {
    if (tree) sessionStorage.setItem(\"log\", JSON.stringify({ tree: tree.tree, log: log.slice(-MOST_LOGGED) }));
  } catch (refused) { }
});
function noteChanges(old, d) {
  const shown = d.shown, told = d.told;
  if (shown && (!old.shown || old.shown.state !== shown.state)) note(d.name + \" \" + shown.state, shown.at);
  if (!told) return;
  const holder = (t) =>
    t.holder === null ? \"free\" : t.holder.operator || \"domain \" + t.holder.domain;
  if (!old.told || holder(old.told) !== holder(told)) note(d.name + \" held by \" + holder(told), told.since);
  if (old.told && !told.busy && told.outcome && told.last !== old.told.last) {
    note(d.name + \" command \" + told.last + \" ended with \" + told.outcome, told.since);
  }
}
function noteSilence() {
  const seen = new Set();
  domains.forEach((d) => {
    if (seen.has(d.station)) return;
    seen.add(d.station);
    const is = d.silence !== null && d.silence >= 0, text = \"station \" + d.station + \", which keeps \" + d.name;
    if (d.wasSilent !== undefined && d.wasSilent !== is) note(text + (is ? \": silent\" : \": heard again\"), liveNow());
    d.wasSilent = is;
  });
}
function showLog() {
  const first = Date.now() - HOUR;
  if (!by(\"hour\").open || !isLogOld) return;
  isLogOld = false;
  log = log.filter((entry) => entry.at >= first).slice(-MOST_LOGGED);
  const sorted = [...log].sort((a, b) => b.at - a.at);
  by(\"log\").replaceChildren(...sorted.map((entry) => {
    const li = make(\"li\"), when = new Date(entry.at);
    const time = make(\"time\", \"\", when.toLocaleTimeString(\"en-GB\"));
    time.dateTime = when.toISOString();
    li.append(time, entry.text);
    return li;
  }));
}
by(\"hour\").addEventListener(\"toggle\", () => { isLogOld = true; showLog(); });
const MOST_SPANNED = 3;
function build(next = tree) {
  plant(next);
  const roots = [...domains.values()].filter((d) => !d.parent);
  by(\"main\").replaceChildren(...roots.map((d) => boxOf(d, 0, roots)));
  stopAt(roots.length ? roots[0].at.top : null);
  flag(document.body, \"many\", roots.length > MOST_SPANNED);
  const states = tree.states.map((s) => [s, stateColour(s)]);
  const people = tree.operators.map((o) => [o.name, personColour(o.name)]);
  legendOf([...states, [\"not seen or silent\", \"\"]], by(\"states\"));
  peopleOf([...people, [\"free\", \"\"]], by(\"people\"));
  document.title = \"tree \" + tree.tree;
  set(by(\"title\"), document.title);
  fitForm();
  leaveOut();
  beginLog();
  forgetAlarms();
  afterBuild.forEach((more) => more());
}
function show() {
  if (!picture) return;
  const time = now(), heard = heardStations(), usual = usualState();
  domains.forEach((d) => showDomain(d, heard, time, usual));
  set(by(\"usual\"), usual ? \"A part without a state is in that of what is above it, or \" + usual + \" as most are.\" : \"\");
  tellAlarms(heard, time);
  if (opened) fill();
  leaveOutAgain();
  afterShow.forEach((more) => more());
}
function spread(next) {
  next.domains.forEach((row) => {
    const d = domains.get(row.name);
    d.shown = row.shown;
    d.told = row.told;
  });
  next.devices.forEach((row) => {
    const d = devices.get(row.name);
    d.shown = row.shown;
    showDevice(d);
  });
  show();
}
function noteRow(x, row) {
  noteChanges(x.live || { shown: null, told: null }, row);
  x.live = row;
}
function take(next) {
  hang(next);
  next.domains.forEach((row) => noteRow(domains.get(row.name), row));
  next.devices.forEach((row) => noteRow(devices.get(row.name), row));
  if (!isPast) {
    spread(next);
    noteSilence();
  }
  showLog();
}
function showEarlier(earlier) {
  hangPast(earlier);
  if (earlier || newest) spread(earlier || newest);
}
function shownAt(book, name, number) {
  const entry = lastUpTo(entriesOf(book, \"board \" + name), number);
  if (!entry) return null;
  const [boot, sequence] = entry.words[2].split(\".\").map(Number);
  return { state: entry.words[3], boot, sequence, at: sinceOf(entry) };
}
function silentAt(book, number) {
  const since = new Map(), names = new Set([...domains.values()].map((d) => d.station));
  names.forEach((station) => {
    const entry = lastUpTo(silenceEntries(book, station), number);
    if (entry && entry.words[0] === \"silent\") since.set(station, entry.at - MOST_SILENCE - 1);
  });
  return since;
}
function pictureAt(book, { number, at }) {
  const silent = silentAt(book, number);
  const rows = [...domains.values()].map((d) => {
    const entry = lastUpTo(entriesOf(book, \"record \" + d.name), number);
    const told = entry ? { ...recordIn(entry), since: sinceOf(entry), heard: silent.get(d.station) ?? at } : null;
    return { name: d.name, shown: shownAt(book, d.name, number), told };
  });
  return { frame: -1, now: at, domains: rows,
    devices: [...devices.values()].map((it) => ({ name: it.name, shown: shownAt(book, it.name, number) })) };
}
function knewThen(book, place, alarm) {
  const entry = lastUpTo(entriesOf(book, \"acknowledged \" + alarm.key), place.number);
  return entry && entry.at >= (alarm.at ?? 0) ? entry.words[3] : \"\";
}
const MOST_NAMED = 3;
let shownPlace = null;
const afterLook = [];
let oldestThere = null;
function lookAt(to) {
  shownPlace = to;
  keepEnd(to !== null);
  showEarlier(to && pictureAt(pastBook, to));
  flag(document.body, \"as-of\", to !== null);
  set(by(\"as-of-words\"), to ? \"AS OF \" + timeBeside(to.at, Date.now()) + \", not now\" : \"\");
  showTime(to ? \"as of \" + dayTime(to.at) : \"\");
  afterLook.forEach((more) => more());
}
function alarmNow() {
  const isTripped = (it) => it.shown && kindOf(it.shown.state) === \"alarm\";
  const hot = newest ? newest.devices.filter(isTripped) : [];
  const names = hot.slice(0, MOST_NAMED).map((it) => it.name).join(\", \");
  return hot.length ? \"now in alarm: \" + names + (hot.length > MOST_NAMED ? \" and \" + (hot.length - MOST_NAMED) +
    \" more\" : \"\") : \"\";
}
by(\"back-to-now\").addEventListener(\"click\", () => lookAt(null));
knowers.push((it) => shownPlace ? knewThen(pastBook, shownPlace, it) : \"\");
afterBuild.push(() => { if (shownPlace) lookAt(null); });
afterShow.push(() => { if (isPast) set(by(\"as-of-now\"), alarmNow()); });
afterAnswer.push(() => {
  const next = shownPlace && shownPlace.isOfTime ? placeOf(shownPlace.at) : shownPlace;
  const isMore = !!next && !!shownPlace && (next.number !== shownPlace.number || oldestThere !== pastBook.list[0]);
  shownPlace = next;
  if (next && isMore) showEarlier(pictureAt(pastBook, next));
  oldestThere = pastBook.list[0];
});
function refill(element, children) {
  const active = (document.activeElement), key = element.contains(active) ? active.dataset.key : \"\";
  element.replaceChildren(...children);
  const again = key && [...element.querySelectorAll(\"[data-key]\")].find((it) => it.dataset.key === key);
  if (again) again.focus();
}
const MOST_ENTRIES = 500;
let wasMarked = false;
let said = new WeakMap();
let saidFrom;
function wordsFor(entry) {
  if (saidFrom !== pastBook.list[0]) said = new WeakMap();
  saidFrom = pastBook.list[0];
  const old = said.get(entry);
  if (old !== undefined) return old;
  const text = sayEntry(pastBook, entry);
  if (entry.words[0] !== \"given\") said.set(entry, text);
  return text;
}
function searched(list) {
  const words = by(\"past-search\").value.trim().toLowerCase().split(/\\s+/).filter((it) => it);
  if (!words.length) return list;
  return list.filter((it) => {
    const text = wordsFor(it).toLowerCase();
    return words.every((word) => text.includes(word));
  });
}
function drawEntries() {
  const list = searched(shownEntries()), more = list.length - MOST_ENTRIES;
  refill(by(\"past-list\"), list.slice(-MOST_ENTRIES).reverse().map((it) => {
    const li = make(\"li\"), lead = make(\"button\"), time = make(\"time\", \"\", timeWithin(it.at));
    time.dateTime = new Date(it.at).toISOString();
    lead.type = \"button\";
    lead.dataset.key = String(it.number);
    lead.append(time, \" \", make(\"span\", \"\", wordsFor(it)));
    lead.addEventListener(\"click\", () => lookAt({ number: it.number, at: it.at }));
    li.append(lead);
    return li;
  }));
  set(by(\"past-more\"), more > 0 ? more + \" more\" : list.length || !isWhole ? \"\" : \"no entries\");
  markEntry();
}
function markEntry() {
  const number = shownPlace && shownPlace.number, list = by(\"past-list\");
  if (wasMarked && number === null) list.scrollTop = 0;
  wasMarked = number !== null;
  const buttons = [...list.querySelectorAll(\"button\")];
  const here = number === null ? undefined : buttons.find((b) => Number(b.dataset.key) <= number);
  buttons.forEach((b) => {
    const isHere = b === here;
    flag(b, \"here\", isHere);
    if (!isHere) return;
    const off = b.getBoundingClientRect().top - list.getBoundingClientRect().top;
    if (off < 0 || off + b.offsetHeight > list.clientHeight) list.scrollTop += off - list.clientHeight / 2;
  });
}
const timesOf = (it, span) => (it.from === span.from ? \"the start\" : timeBeside(it.from, span.to)) + \" to \" +
  (it.to === span.to ? \"the end\" : timeBeside(it.to, span.to));
const chosen = (list, names) => [...list].map((it) => it.name).filter((name) => names === null || names.has(name));
function holdingLines(book, span, names) {
  let plain = 0;
  const lines = chosen(domains.values(), names).flatMap((name) => {
    const list = holdersOf(book, name, span).filter((it) => it.value && it.value !== \"free\");
    const isPlain = list.length === 1 && list[0].value === \"domain \" + domains.get(name).parent;
    plain += isPlain ? 1 : 0;
    return list.length && !isPlain ? [name, ...list.map((it) => \"  \" + timesOf(it, span) + \"  \" + it.value)] : [];
  });
  return plain ? [...lines, \"held once, by the domain above: \" + plain] : lines;
}
function orderLines(book, span, names) {
  const ordered = new Map();
  within(entriesOf(book, \"given\"), span).filter((it) => isAbout(book, it, names)).forEach((it) => {
    const [operator, order] = orderIn(it);
    const end = entriesOf(book, \"order \" + it.words[1])
      .find((other) => other.words[0] === \"ended\" && givenOf(book, other) === it);
    if (!operator) return;
    const line = \"  \" + timeBeside(it.at, span.to) + \"  \" + order + \": \" + (end ? endIn(end) : \"has not ended\");
    ordered.set(operator, [...(ordered.get(operator) || []), line]);
  });
  return [...ordered].flatMap(([operator, lines]) => [operator, ...lines]);
}
function faultLines(book, span, names) {
  return chosen(domains.values(), names).flatMap((name) =>
    within(entriesOf(book, \"record \" + name), span).filter((it) => isNews(book, it)).flatMap((it) => {
      const news = newsOf(it, beforeIt(book, it));
      return news.hasCommand && !news.busy && news.outcome ? [{ it, news, name }] : [];
    })).sort((a, b) => a.it.number - b.it.number).map(({ it, news, name }) =>
    \"  \" + timeBeside(it.at, span.to) + \"  command \" + news.last + \" of \" + name + \" ended with \" + news.outcome);
}
const hotTimes = (book, span, name) => statesOf(book, name, span).filter((it) => kindOf(it.value) === \"alarm\");
function ownAlarms(book, span, name) {
  const d = domains.get(name), hot = hotTimes(book, span, name);
  if (!d || !hot.length) return hot;
  const causes = [...d.devices, ...d.children].flatMap((it) => hotTimes(book, span, it.name));
  return hot.filter((it) => !causes.some((cause) => cause.from < it.to && it.from < cause.to));
}
function alarmLines(book, span, names) {
  return chosen([...domains.values(), ...devices.values()], names).flatMap((name) => {
    const of = new Map();
    ownAlarms(book, span, name).forEach((it) => of.set(it.value, [...(of.get(it.value) || []), it.to - it.from]));
    return [...of].map(([state, times]) => \"  \" + name + \" \" + state + \": \" +
      (times.length === 1 ? \"once\" : times.length + \" times\") + \", \" +
      lengthOf(times.reduce((sum, it) => sum + it, 0)) + \" in all\");
  });
}
function silenceLines(book, span, names) {
  const stations = new Set([...domains.values()].filter((d) => names === null || names.has(d.name))
    .map((d) => d.station));
  return [...stations].flatMap((station) => silentTimes(book, station, span)
    .map((it) => \"  \" + station + \"  \" + timesOf(it, span) + \"  \" + lengthOf(it.to - it.from)));
}
function summaryOf(book, span, names, what) {
  const head = \"tree \" + tree.tree + \", \" + (what || \"all\") + \", \" + dayOf(span.from) + \" \" + dayTime(span.from) +
    \" to \" + dayOf(span.to) + \" \" + dayTime(span.to) + \", local time\";
  const parts = [[\"Who held what\", holdingLines], [\"Orders of this screen\", orderLines],
    [\"Commands that ended with a code other than 0\", faultLines], [\"Alarms\", alarmLines],
    [\"Silent stations\", silenceLines]];
  return [head, ...parts.flatMap(([title, linesOf]) => {
    const lines = linesOf(book, span, names);
    return [\"\", title, ...(lines.length ? lines : [\"  none\"])];
  })].join(\"\\n\") + \"\\n\";
}
function writeSummary() {
  if (!by(\"summary\").open) return;
  set(by(\"summary-text\"), isWhole ? summaryOf(pastBook, shownSpan(), wantedNames(), subject) :
    \"entries are on their way\\n\");
}
function fileName() {
  const to = shownSpan().to;
  return \"shift-\" + dayOf(to).replaceAll(\"-\", \"\") + \"-\" + dayTime(to).slice(0, 5).replace(\":\", \"\") + \".txt\";
}
async function copySummary() {
  try {
    await navigator.clipboard.writeText(by(\"summary-text\").textContent);
    set(by(\"summary-said\"), \"copied\");
  } catch (refused) {
    getSelection().selectAllChildren(by(\"summary-text\"));
    set(by(\"summary-said\"), document.execCommand(\"copy\") ? \"copied\" : \"selected: copy it by Ctrl+C\");
  }
}
function saveSummary() {
  const url = URL.createObjectURL(new Blob([by(\"summary-text\").textContent], { type: \"text/plain\" })), a = make(\"a\");
  a.href = url;
  a.download = fileName();
  a.click();
  set(by(\"summary-said\"), \"saved as \" + a.download);
  setTimeout(() => URL.revokeObjectURL(url), 10000);
}
by(\"summary-copy\").addEventListener(\"click\", copySummary);
by(\"summary-save\").addEventListener(\"click\", saveSummary);
by(\"summary-print\").addEventListener(\"click\", () => print());
by(\"summary\").addEventListener(\"toggle\", () => {
  flag(document.body, \"summarised\", by(\"summary\").open);
  set(by(\"summary-said\"), \"\");
  writeSummary();
});
const PARTS = 400, MOST_MARKS = 200, MOST_READ_OUT = 8;
const MOST_UNDATED = 24 * HOUR;
const share = (at, span) => (100 * (at - span.from) / (span.to - span.from)).toFixed(3) + \"%\";
function putAt(e, it, span, title) {
  style(e, \"left\", share(it.from, span));
  if (it.to > it.from) style(e, \"width\", share(span.from + it.to - it.from, span));
  e.title = title;
  return e;
}
const timeWords = (it) => \" from \" + timeWithin(it.from) + \" to \" + timeWithin(it.to);
const stateWords = (it) => (it.value || \"not seen\") + (it.count > 1 ? \" and \" + (it.count - 1) + \" more\" : \"\") +
  timeWords(it);
const markWords = (it, span) => (chosenEnd === null && span.to - span.from <= MOST_UNDATED ? dayTime(it.at) :
  timeWithin(it.at)) + \" \" + sayEntry(pastBook, it.entry);
function spaced(marks, least) {
  const lastAt = new Map();
  return marks.filter((it) => {
    if (it.at - (lastAt.get(it.kind) ?? -Infinity) < least) return false;
    lastAt.set(it.kind, it.at);
    return true;
  }).slice(-MOST_MARKS);
}
function trackOf(name, span) {
  const track = make(\"div\", \"track\"), least = (span.to - span.from) / PARTS, known = knownSpan();
  const d = domains.get(name) || domains.get(devices.get(name).domain);
  const states = thinned(statesOf(pastBook, name, known), least);
  track.append(...states.map((it) => {
    const band = putAt(make(\"i\", \"band\"), it, span, stateWords(it));
    paint(band, it.value);
    return band;
  }), ...thinned(silentTimes(pastBook, d.station, known), least).map((it) =>
    putAt(make(\"i\", \"hush\"), it, span, \"station \" + d.station + \" silent\" + timeWords(it))),
  ...spaced(marksOf(pastBook, name, known), least).map((it) =>
    putAt(make(\"b\", \"mark \" + it.kind), { from: it.at, to: it.at }, span, markWords(it, span))));
  track.tabIndex = 0;
  track.dataset.key = \"track \" + name;
  track.setAttribute(\"role\", \"img\");
  const read = states.slice(-MOST_READ_OUT).map(stateWords);
  label(track, name + \": \" + read.join(\", \"));
  track.addEventListener(\"click\", (click) => {
    const box = track.getBoundingClientRect();
    lookAt(placeOf(Math.round(span.from + (click.clientX - box.left) / box.width * (span.to - span.from))));
  });
  return track;
}
function leadTo(name, text, redraw) {
  const b = make(\"button\", \"row-name\", text);
  b.type = \"button\";
  b.dataset.key = \"row \" + name;
  b.addEventListener(\"click\", () => { chooseSubject(name); redraw(); });
  return b;
}
function drawLine(redraw) {
  const span = shownSpan(), list = make(\"ol\"), axis = make(\"div\", \"axis\"), d = domains.get(subject);
  const up = d ? d.parent : devices.has(subject) ? devices.get(subject).domain : null;
  axis.setAttribute(\"aria-hidden\", \"true\");
  axis.append(...axisOf(span).map(({ at, text }) => {
    const tick = make(\"span\", \"\", text);
    style(tick, \"left\", share(at, span));
    return tick;
  }));
  label(list, \"time line of \" + (subject || \"all\") + (chosenEnd === null ? \"\" : \" until \" + timeWithin(chosenEnd)));
  list.append(...rowNames().map((name) => {
    const li = make(\"li\", \"row\");
    li.append(leadTo(name, name, redraw), trackOf(name, span));
    return li;
  }));
  const upward = subject ? [leadTo(up || \"\", \"up to \" + (up || \"all\"), redraw)] : [];
  refill(by(\"time-line\"), [...upward, list, axis]);
  showCursor();
}
function showCursor() {
  style(by(\"time-line\"), \"--at\", shownPlace ? share(shownPlace.at, shownSpan()) : \"100%\");
}
const RESTED = 600;
const afterEnd = [];
let resting;
const lengthWords = (end) => (hours === 1 ? \"hour\" : hours < 168 ? hours + \" hours\" : hours / 24 + \" days\") +
  \" until \" + dayMinute(end);
function sayEnd() {
  set(by(\"past-old\"), chosenEnd === null ? \"\" : \"the \" + lengthWords(chosenEnd) + \", not until now\");
  mark(by(\"past-until-now\"), \"aria-pressed\", String(chosenEnd === null));
}
function takeEnd(end) {
  if (end === chosenEnd) return;
  chooseEnd(end);
  afterEnd.forEach((more) => more());
}
function readEnd() {
  const field = by(\"past-until\"), end = field.value ? new Date(field.value).getTime() : null;
  const isStrange = field.validity.badInput || end !== null && !(end < Date.now());
  if (!isStrange) takeEnd(end);
  flag(field, \"strange\", isStrange);
  mark(field, \"aria-invalid\", String(isStrange));
}
by(\"past-until\").addEventListener(\"input\", () => {
  clearTimeout(resting);
  resting = setTimeout(readEnd, RESTED);
});
by(\"past-until-now\").addEventListener(\"click\", () => {
  clearTimeout(resting);
  by(\"past-until\").value = \"\";
  readEnd();
});
sayEnd();
const STEPS_SHOWN = 1000, REDRAWN = 10000, COMING = 1000, PART_DRAWN = 5;
const MOST_UNSAVED = 1000, LATE_SAVED = 60000;
let drawnBook = null;
let drawnAt = 0, drawnFor = 0, unsavedSince = 0;
const isOpen = () => !by(\"past\").hidden;
function drawPast() {
  drawnBook = pastBook;
  drawnAt = performance.now();
  drawLine(drawPast);
  drawEntries();
  writeSummary();
  showPlace();
  if (by(\"past-of\") !== document.activeElement) by(\"past-of\").value = subject;
  drawnFor = performance.now() - drawnAt;
}
function showPlace() {
  const span = shownSpan(), slider = by(\"past-slider\"), at = shownPlace ? shownPlace.at : span.to;
  const share = Math.round(STEPS_SHOWN * (at - span.from) / (span.to - span.from));
  slider.value = String(shownPlace ? Math.max(0, Math.min(STEPS_SHOWN - 1, share)) : STEPS_SHOWN);
  const words = shownPlace ? \"as of \" + timeWithin(at) : chosenEnd === null ? \"now\" : \"the page shows now\";
  mark(slider, \"aria-valuetext\", words);
  set(by(\"past-shown\"), words);
  showCursor();
  markEntry();
}
function unsavedWords() {
  const isLate = newestHead && chosenEnd === null && newestHead.saved > 0 &&
    newestHead.count - newestHead.saved > MOST_UNSAVED;
  unsavedSince = isLate ? unsavedSince || performance.now() : 0;
  if (!isLate || performance.now() - unsavedSince < LATE_SAVED) return \"\";
  const entry = lastUpTo(pastBook.list, newestHead.saved);
  return \"not saved since \" + (entry ? dayTime(entry.at).slice(0, 5) : \"before what is here\");
}
function sayState() {
  const first = keptLater(), coming = (chosenEnd === null ? \"earlier \" : \"\") + \"entries are on their way\";
  const words = [historyFault || unsavedWords(), !historyFault && !isWhole ? coming : \"\",
    first ? \"kept since \" + dayMinute(first) : \"\"];
  set(by(\"past-said\"), words.filter((it) => it).join(\", \"));
}
function turnTime() {
  if (wantChosen() && shownPlace) lookAt(null);
  if (tree) drawPast();
  sayEnd();
  sayState();
}
function showAnswer() {
  if (!isOpen()) return;
  wantChosen();
  sayState();
  const passed = performance.now() - drawnAt, isFirst = !drawnBook || !drawnBook.list.length;
  const pause = Math.max(isWhole ? 0 : COMING, PART_DRAWN * drawnFor);
  if (drawnBook === pastBook ? passed > REDRAWN : isFirst || passed > pause) drawPast();
}
function openPast(name = \"\") {
  chooseSubject(name);
  by(\"past\").hidden = false;
  mark(by(\"past-open\"), \"aria-pressed\", \"true\");
  by(\"past-name\").focus();
  turnTime();
  followHistory();
}
function closePast() {
  if (shownPlace) lookAt(null);
  leaveHistory();
  by(\"past\").hidden = true;
  by(\"summary\").open = false;
  mark(by(\"past-open\"), \"aria-pressed\", \"false\");
  by(\"past-open\").focus();
}
function turnPast() { if (isOpen()) closePast(); else openPast(); }
function stepBy(step) {
  const { number, at, isOfTime } = shownPlace || { number: Infinity, at: Infinity, isOfTime: false };
  const isBefore = (it) => it.number < number || isOfTime && it.number === number && it.at < at;
  const list = shownEntries(), next = step < 0 ? list.filter(isBefore).pop() : list.find((it) => it.number > number);
  if (next) lookAt({ number: next.number, at: next.at }); else if (step > 0) lookAt(lastPlace());
}
function offerNames() {
  by(\"past-names\").replaceChildren(...[...domains.keys(), ...devices.keys(),
    ...tree.operators.map((it) => it.name)].map((name) => {
    const option = make(\"option\");
    option.value = name;
    return option;
  }));
}
by(\"past-span\").value = String(hours);
by(\"past-span\").addEventListener(\"change\", () => { chooseHours(Number(by(\"past-span\").value)); turnTime(); });
by(\"past-of\").addEventListener(\"input\", () => {
  const name = by(\"past-of\").value.trim().toUpperCase();
  const isKnown = !name || domains.has(name) || devices.has(name) ||
    !!tree && tree.operators.some((it) => it.name === name);
  flag(by(\"past-of\"), \"strange\", !isKnown);
  if (isKnown) { chooseSubject(name); drawPast(); }
});
by(\"past-search\").addEventListener(\"input\", drawEntries);
by(\"past-slider\").addEventListener(\"input\", () => {
  const span = shownSpan(), value = Number(by(\"past-slider\").value);
  const at = Math.round(span.from + (span.to - span.from) * value / STEPS_SHOWN);
  lookAt(value < STEPS_SHOWN ? placeOf(at) : lastPlace());
});
by(\"past-before\").addEventListener(\"click\", () => stepBy(-1));
by(\"past-after\").addEventListener(\"click\", () => stepBy(1));
by(\"past-open\").addEventListener(\"click\", turnPast);
by(\"past-close\").addEventListener(\"click\", closePast);
document.addEventListener(\"keydown\", (key) => {
  const target = (key.target);
  const isTaken = document.querySelector(\"dialog[open]\") || target.type === \"search\" && target.value;
  if (key.key !== \"Escape\" || isTaken) return;
  if (shownPlace) lookAt(null); else if (isOpen()) closePast();
});
afterEnd.push(() => { if (shownPlace) lookAt(null); turnTime(); });
afterAnswer.push(showAnswer);
afterLook.push(() => { if (isOpen()) showPlace(); });
afterBuild.push(offerNames);
extras.push((d) => {
  const b = make(\"button\", \"tool\", \"its past\");
  b.type = \"button\";
  b.id = \"its-past\";
  b.addEventListener(\"click\", () => {
    by(\"more\").addEventListener(\"close\", () => openPast(d.name), { once: true });
    by(\"more\").close();
  });
  return b;
});
function seen() {
  const tops = ([...document.querySelectorAll(\"#main [data-domain]\")]);
  return tops.map((top) => domains.get(top.dataset.domain))
    .filter((d) => !d.at.box.classList.contains(\"left-out\") && !isHidden(d));
}
function moves(key) {
  const all = seen(), here = document.activeElement && (document.activeElement).dataset.domain;
  const d = domains.get(here), at = all.indexOf(d), step = ({ ArrowDown: 1, ArrowUp: -1 })[key];
  let next = null;
  if (!all.length) return false;
  if (step) next = d ? all[(at + step + all.length) % all.length] : all[0];
  else if (!d) return false;
  else if (key === \"Home\" || key === \"End\") next = all[key === \"Home\" ? 0 : all.length - 1];
  else if (key === \"ArrowRight\" && d.children.length) {
    if (isFolded(d)) fold(d, false); else next = all[at + 1];
  } else if (key === \"ArrowLeft\") {
    if (d.children.length && !isFolded(d)) fold(d, true); else next = domains.get(d.parent);
  } else return false;
  if (next) enter(next.at.top);
  return true;
}
const DEEDS = { t: turnTheme, f: fit, h: turnPast, \"/\": () => by(\"find\").focus(), \"+\": () => resize(1.1),
  \"-\": () => resize(1 / 1.1) };
document.addEventListener(\"keydown\", (key) => {
  const target = (key.target);
  const isTyping = target.matches && target.matches(\"input, select\");
  if (key.ctrlKey || key.metaKey || key.altKey || by(\"more\").open || isTyping) return;
  const isInPast = target.closest && target.closest(\"#past\"), deed = DEEDS[key.key];
  if (deed) deed();
  if (deed || !isInPast && moves(key.key)) key.preventDefault();
});
by(\"find\").addEventListener(\"input\", leaveOut);
by(\"find\").addEventListener(\"keydown\", (key) => {
  if (key.key === \"Escape\") { by(\"find\").value = \"\"; by(\"find\").blur(); leaveOut(); }
});
addEventListener(\"hashchange\", leaveOut);
const PAUSE = 250, LATE = 900, GONE = 1600;
const PATIENCE = 1200;
const RECENT = 1500, WHOLE = 60000;
let gotAt = 0, wholeAt = 0;
let shape = \"\";
async function ask(path) {
  const gone = new AbortController(), bell = setTimeout(() => gone.abort(), PATIENCE);
  try {
    const answer = await fetch(path, { signal: gone.signal, cache: \"no-store\" });
    if (answer.status === 204) return null;
    return answer.ok ? await answer.text() : undefined;
  } catch (refused) {
    return undefined;
  } finally { clearTimeout(bell); }
}
async function askTree() {
  const text = await ask(\"/api/tree\");
  if (!text || text === shape) return;
  shape = text;
  build(JSON.parse(text));
}
function pictureQuery() {
  if (!newest) return \"\";
  const time = Date.now(), isRecent = time - gotAt < RECENT && time - wholeAt < WHOLE;
  return isRecent ? \"?since=\" + newest.now : \"?after=\" + newest.frame;
}
async function askPicture() {
  const text = await ask(\"/api/picture\" + pictureQuery());
  if (!text) return;
  const told = JSON.parse(text), hasAll = told.since === undefined, next = hasAll ? told : changed(told);
  gotAt = Date.now();
  if (hasAll) wholeAt = gotAt;
  if (newest && next.frame < newest.frame) {
    await askTree();
    afterRestart.forEach((again) => again());
  }
  take(next);
}
async function follow() {
  try {
    if (!tree) await askTree();
    if (tree) await askPicture();
  } finally { setTimeout(follow, PAUSE); }
}
function showLive() {
  const late = lateness(), live = by(\"live\"), lost = late > GONE, kind = lost ? \"lost\" : late > LATE ? \"late\" : \"\";
  if (live.className !== kind) live.className = kind;
  set(live, lost ? \"NO CONTACT\" : newest ? \"live\" : \"joining\");
  flag(document.body, \"lost\", lost);
  showLost(lost);
  if (lost) set(by(\"lost-words\"), \"NO CONTACT for \" + age(late) + \": nothing here is true any more\");
}
const tick = () => { set(by(\"clock\"), new Date().toLocaleTimeString(\"en-GB\")); showLive(); show(); };
setInterval(tick, 500);
setInterval(showLive, 100);
tick();
follow();
</script>
";
