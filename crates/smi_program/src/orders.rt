//! What follows the page if it may give orders (`with_orders`). It is made of the files of page/ by tools/page.py.

/// What follows the page if it may give orders (`with_orders`).
pub const ORDERS: &str = "<style>
#who { display: inline-flex; align-items: center; gap: .5rem; font-weight: 600; color: var(--soft) }
#who select { font: inherit; font-weight: 700; color: var(--ink); background: var(--card); padding: .1rem .4rem }
#console { font-weight: 700; border-radius: 8px; padding: .2rem .7rem; color: var(--soft) }
#console.away { background: #bb1c1c; color: #fff }
.given { list-style: none; margin: 0; padding: .4rem 0 0; display: grid; gap: .25rem }
.given:empty { display: none }
.given li { display: flex; flex-wrap: wrap; gap: 0 .6rem; background: var(--card); border: 2px solid var(--line);
  border-left: 10px solid var(--c, var(--line)); border-radius: 8px; padding: .1rem .5rem }
.given b { overflow-wrap: anywhere }
.given button { margin-left: auto; border: 2px solid var(--line); border-radius: 8px; padding: 0 .5rem;
  background: var(--part); color: var(--ink) }
.orders { display: flex; flex-wrap: wrap; gap: .5rem; margin: 1rem 0; align-items: center }
.orders h3 { flex: 100%; margin: 0; font-size: 1.2rem }
.orders button, #question button { border: 2px solid var(--line); border-radius: 8px; padding: .4rem .8rem;
  font-weight: 700; background: var(--part) }
.orders button[aria-disabled=true] { color: var(--soft); border-style: dashed; cursor: not-allowed; font-weight: 400 }
.orders p, .orders ol { flex: 100%; margin: 0; color: var(--soft); min-height: 1.3em }
#question { inset: 0; margin: auto; width: min(40rem, 96%); height: fit-content; border: 4px solid var(--line);
  border-radius: 12px; padding: 1.2rem }
#question p { font-size: 1.5rem; font-weight: 700; margin: 0 0 1rem }
#question div { display: flex; flex-wrap: wrap; gap: .7rem }
</style>
<dialog id=\"question\" aria-labelledby=\"question-words\"><p id=\"question-words\"></p><div id=\"choices\"></div></dialog>
<script>
\"use strict\";
const MODE_BY = { include: \"included\", exclude: \"out\", manual: \"manual\", ignore: \"ignored\" };
const OLD = 3000;
let modes = new Map();
const made = new Map();
function learnModes(lines) {
  modes = new Map(lines.map((line) => { const [child, mode] = line.split(\" \"); return [child, mode]; }));
}
function noteMode(verb, child) { made.set(child, [MODE_BY[verb], performance.now() + OLD]); }
function modeOf(d) {
  const told = modes.get(d.name), [mode, until] = made.get(d.name) || [\"\", 0];
  return !told || !domains.has(d.parent) ? \"\" : performance.now() < until ? mode : told;
}
const held = (d) => d.children.filter((c) => {
  const holder = holderOf(c), mode = modeOf(c);
  return !!holder && holder.domain === d.name || mode !== \"\" && mode !== \"out\";
});
const isSoAlready = (d, verb) => modeOf(d) === MODE_BY[verb];
const MODES = [\"include\", \"exclude\", \"manual\", \"ignore\"];
const isOfMode = (verb) => MODES.includes(verb);
const asksChild = (verb) => verb === \"include\" || verb === \"exclude\";
const parentOf = (name) => domains.get(domains.get(name).parent);
const isSilent = (d) => d.silence !== null && d.silence !== undefined;
function countedAt(d) {
  const { epoch, last } = d.told, old = d.counted;
  return old && old.epoch === epoch && last <= old.last ? old : { epoch, last, open: 0, manual: new Set() };
}
function isManual(d) {
  const mode = modeOf(d);
  if (mode) return mode === \"manual\";
  const parent = domains.get(d.parent), old = parent.told && parent.counted;
  return !!old && !old.open && !isSilent(parent) && countedAt(parent) === old && old.manual.has(d.name);
}
function wayOf([verb, name, target]) {
  const way = isOfMode(verb) || verb === \"do\" ? [domains.get(name)] : [];
  for (let d = isOfMode(verb) ? parentOf(target) : null; d && d !== way[0]; d = domains.get(d.parent)) way.push(d);
  return way.filter((d) => d.told);
}
function countedFor(words) {
  return wayOf(words).map((d) => {
    const count = d.counted = countedAt(d);
    count.last += 1;
    count.open += 1;
    if (isOfMode(words[0])) count.manual.delete(words[2]);
    return [d, count];
  });
}
function endCounted([verb, name, target], counts, code) {
  counts.forEach(([d, count]) => {
    count.open -= 1;
    const hasRun = code !== null && (d.name === name ? code <= 9 : code === 0);
    if (!hasRun && d.counted === count) d.counted = null;
    if (verb === \"manual\" && d === parentOf(target) && (code === 0 || code === 3)) count.manual.add(target);
  });
}
const LANES = 4;
let who = \"\";
let given = [];
let withdrawals = [];
let hasConsole = false;
const found = new Set();
function choose(name) { who = name; }
const isWithdrawal = (it) => it.line.startsWith(\"withdraw \");
function learn(lines) {
  given = lines.filter((it) => !isWithdrawal(it));
  withdrawals = lines.filter(isWithdrawal);
}
function connect(is) { hasConsole = is; }
const wordsOf = (it) => it.line.split(\" \").slice(1);
const operatorOf = (it) => wordsOf(it)[0];
const domainOf = (it) => wordsOf(it)[2];
const orderOf = (it) => wordsOf(it).slice(1).join(\" \");
const byWhom = (it) => it.by ? \" by \" + it.by : \"\";
const hasBegun = (it) => withdrawals.some(({ answer }) => answer === \"begun \" + it.number);
const holdsUp = (it) => it.waits && wordsOf(it)[1] !== \"ask\";
const waitingOf = (name, before = Infinity) =>
  given.filter((it) => holdsUp(it) && operatorOf(it) === name && it.number < before);
function waitedFor(orders, domain) {
  const same = orders.filter((it) => domainOf(it) === domain);
  const first = orders.filter((it, at) => orders.findIndex((o) => domainOf(o) === domainOf(it)) === at);
  return same.length ? same : first.length >= LANES ? first.slice(0, LANES) : [];
}
const firstBefore = (it) =>
  holdsUp(it) ? waitedFor(waitingOf(operatorOf(it), it.number), domainOf(it))[0] : undefined;
const MOST_IN_NAME = 32;
const nameIn = (text) => text.replace(/[^ !$-[\\]-~]/g, \"\").trim().slice(0, MOST_IN_NAME).trim();
let myName = nameIn(kept(\"name\") || \"\");
function takeName(text) {
  myName = nameIn(text);
  keep(\"name\", myName);
}
const signed = (line) => myName ? line + \" # \" + myName : line;
function nameField() {
  const field = make(\"input\");
  field.id = \"my-name\";
  field.maxLength = MOST_IN_NAME;
  field.autocomplete = \"off\";
  field.placeholder = \"your name\";
  field.title = \"it goes with each order\";
  field.value = myName;
  label(field, \"your name\");
  field.addEventListener(\"input\", () => takeName(field.value));
  field.addEventListener(\"blur\", () => { field.value = myName; });
  return field;
}
let typed = \"\";
try { typed = sessionStorage.getItem(\"token\") || \"\"; } catch (refused) { }
const asksToken = () => KEY === \"\";
const lacksToken = () => asksToken() && typed === \"\";
const authorization = () => asksToken() ? \"Bearer \" + typed : KEY;
function takeToken(text) {
  typed = text.trim();
  by(\"token\").value = typed;
  try { sessionStorage.setItem(\"token\", typed); } catch (refused) { }
}
function tokenField() {
  const field = make(\"input\");
  field.id = \"token\";
  field.type = \"password\";
  field.autocomplete = \"off\";
  field.placeholder = \"token\";
  field.value = typed;
  field.setAttribute(\"aria-label\", \"token for orders\");
  field.addEventListener(\"change\", () => takeToken(field.value));
  return field;
}
let awaited = [];
function tellGiven(text) { set(by(\"told\"), text); }
async function send(line, name, place = \"/api/orders\") {
  const gone = new AbortController(), bell = setTimeout(() => gone.abort(), PATIENCE);
  try {
    const answer = await fetch(place, { method: \"POST\", body: line, headers: { Authorization: authorization() },
      signal: gone.signal, cache: \"no-store\", credentials: \"omit\" });
    const isWrong = asksToken() && answer.status === 403;
    if (isWrong) takeToken(\"\");
    tellGiven(name + \": \" + (isWrong ? \"the token is wrong, type it at the top of the page\" : await answer.text()));
    return answer.ok;
  } catch (refused) {
    tellGiven(name + \": not known whether the screen has it, look below\");
    return false;
  } finally { clearTimeout(bell); }
}
function expect(line) {
  const one = { line, after: given.length ? given[given.length - 1].number : 0, number: 0 };
  one.end = new Promise((tell) => { one.tell = tell; });
  awaited.push(one);
  return one;
}
function tellEnds() {
  awaited = awaited.filter((one) => {
    const it = given.find(({ number, line }) => one.number ? number === one.number
      : line === one.line && number > one.after && !found.has(number));
    if (it) found.add(one.number = it.number);
    if (!it || it.waits) return true;
    one.tell(it.code);
    return false;
  });
}
async function give(order) {
  const line = \"order \" + who + \" \" + order, words = order.split(\" \"), counts = countedFor(words), one = expect(line);
  if (!await send(signed(line), line)) {
    awaited = awaited.filter((it) => it !== one);
    one.tell(null);
  }
  const code = await one.end;
  endCounted(words, counts, code);
  if (isOfMode(words[0]) && (code === 0 || code === 3)) noteMode(words[0], words[2]);
  return code;
}
async function giveAfterManual(deed, names) {
  for (const name of names) {
    const code = await give(\"manual \" + deed.at.name + \" \" + name);
    if (code !== 0 && code !== 3) {
      tellGiven(deed.name + \" was not ordered: \" + name + \" was not made manual\");
      return;
    }
  }
  await give(deed.line());
}
let acknowledged = new Map();
function learnAcknowledged(list) {
  acknowledged = new Map(list.map(({ alarm, at }) => {
    const [kind, object, name] = alarm.split(\" \");
    return [kind + \" \" + object, { name, at }];
  }));
}
function knowerOf(it) {
  if (isPast) return \"\";
  const one = acknowledged.get(it.key);
  return one && one.at >= (it.at ?? 0) ? one.name : \"\";
}
async function acknowledge(keys) {
  if (!who || lacksToken()) {
    tellGiven(who ? \"type the token, at the top of the page\" : \"choose who acknowledges, at the top of the page\");
    return;
  }
  for (const key of keys) {
    const line = \"acknowledge \" + key + \" \" + who;
    if (!await send(line, line, \"/api/alarms\")) return;
  }
}
const holderName = (d) => { const h = holderOf(d); return !d.told ? \"\" : !h ? \"nobody\" : h.operator || h.domain; };
const isHeldBy = (d, name) => holderName(d) === name && d.told !== null;
function above(d) {
  for (let at = domains.get(d.parent); at; at = domains.get(holderOf(at) && holderOf(at).domain)) {
    if (isHeldBy(at, who)) return at;
  }
  return null;
}
function silentBelow(d) {
  return held(d).filter((c) => !isManual(c)).flatMap((c) => isSilent(c) ? [c] : silentBelow(c));
}
function silentOnWay(d) {
  const top = above(d), silent = [];
  for (let at = domains.get(d.parent); top && at !== top; at = domains.get(at.parent)) {
    if (isSilent(at) && !isManual(at)) silent.push(at);
  }
  return silent;
}
function whyNobody() {
  if (isPast) return \"the page shows an earlier time: go back to now\";
  if (!who) return \"choose who orders, at the top of the page\";
  if (lacksToken()) return \"type the token for orders, at the top of the page\";
  return hasConsole ? \"\" : \"there is no connection with the console\";
}
function whyNoTake(d) {
  if (!d.told || !holderOf(d)) return \"\";
  return isHeldBy(d, who) ? who + \" holds \" + d.name + \" already\" : d.name + \" is held by \" + holderName(d);
}
function whyNoDrop(d) {
  if (!isHeldBy(d, who)) return who + \" does not hold \" + d.name;
  return d.told.busy ? \"a command at \" + d.name + \" is not answered yet\" : \"\";
}
function whyNoCommand(d) {
  if (isHeldBy(d, who)) return \"\";
  const top = above(d);
  return who + \" does not hold \" + d.name + (top ? \": order at \" + top.name : \"\");
}
function whyNoMode(d, verb) {
  const parent = domains.get(d.parent), h = holderOf(d);
  if (!above(d)) return who + \" commands nothing above \" + d.name;
  const isHeld = h && h.domain === parent.name;
  if (isHeld && isSoAlready(d, verb)) return d.name + \" is \" + modeOf(d) + \" already\";
  if (verb === \"include\") return h && h.operator ? d.name + \" is held by \" + h.operator : \"\";
  return isHeld ? \"\" : d.name + \" is not held by \" + parent.name;
}
const ASKED = { include: (d) => \"include \" + d.name + \" in \" + d.parent + \"?\", exclude: (d) => \"exclude \" + d.name +
  \" from \" + d.parent + \"?\", manual: (d) => \"make \" + d.name + \" manual in \" + d.parent + \"?\",
  ignore: (d) => \"ignore \" + d.name + \" in \" + d.parent + \"?\" };
function deedsOf(d) {
  const deeds = [
    { name: \"take\", asked: \"take \" + d.name + \"?\", line: () => \"take \" + d.name, why: () => whyNoTake(d), at: d,
      waitsFor: () => [] },
    { name: \"drop\", asked: \"drop \" + d.name + \"?\", line: () => \"drop \" + d.name, why: () => whyNoDrop(d), at: d,
      waitsFor: () => [] }];
  const accepted = tree.actions.filter((name, at) => d.accepts[at]);
  accepted.forEach((action) => deeds.push({ name: action, asked: action + \" at \" + d.name + \"?\",
    line: () => \"do \" + d.name + \" \" + action, why: () => whyNoCommand(d), waitsFor: () => silentBelow(d), at: d,
    isCommand: true }));
  if (d.parent) {
    Object.keys(ASKED).forEach((verb) => deeds.push({ name: verb, asked: ASKED[verb](d),
      line: () => verb + \" \" + above(d).name + \" \" + d.name, why: () => whyNoMode(d, verb),
      waitsFor: () => silentOnWay(d).concat(asksChild(verb) && isSilent(d) ? [d] : []),
      get at() { return above(d) || domains.get(d.parent); }, isOfMode: true }));
  }
  return deeds;
}
const withdrawing = new Map();
async function withdraw(number, order) {
  if (withdrawing.has(number)) return;
  withdrawing.set(number, order);
  if (!await send(signed(\"withdraw \" + number), \"withdraw \" + order)) withdrawing.delete(number);
}
function tellBegun() {
  withdrawing.forEach((order, number) => {
    const it = withdrawals.find(({ line, waits }) => line === \"withdraw \" + number && !waits);
    if (!it) return;
    withdrawing.delete(number);
    if (it.answer === \"begun \" + number) tellGiven(order + \" has begun and can't be withdrawn\");
  });
}
function elementOf({ number, order }) {
  const one = { li: make(\"li\"), fate: make(\"span\"), off: make(\"button\", \"\", \"withdraw\") };
  one.off.type = \"button\";
  label(one.off, \"withdraw \" + order);
  one.off.addEventListener(\"click\", () => withdraw(number, order));
  one.li.append(make(\"b\", \"\", order), one.fate, one.off);
  return one;
}
function lister(list) {
  const inList = new Map();
  return (rows) => {
    inList.forEach(({ li }, number) => {
      if (rows.some((row) => row.number === number)) return;
      li.remove();
      inList.delete(number);
    });
    rows.forEach((row, place) => {
      const one = inList.get(row.number) || elementOf(row);
      if (!inList.has(row.number)) list.insertBefore(one.li, list.children[place] || null);
      inList.set(row.number, one);
      set(one.fate, row.fate);
      style(one.li, \"--c\", row.edge);
      if (row.isFirm) one.off.remove();
    });
  };
}
const LONG = 2000;
function question(words, choices, first) {
  const dialog = by(\"question\");
  set(by(\"question-words\"), words);
  by(\"choices\").replaceChildren(...choices.map(([text, deed], place) => {
    const b = make(\"button\", \"\", text);
    b.type = \"button\";
    b.autofocus = place === first;
    b.addEventListener(\"click\", () => { dialog.close(); deed(); });
    return b;
  }));
  dialog.showModal();
}
function waitingWords(deed) {
  const waiting = waitedFor(waitingOf(who), deed.at.name), words = waiting.map(orderOf);
  if (!waiting.length) return \"\";
  if (domainOf(waiting[0]) !== deed.at.name) {
    return \"Orders of \" + who + \" about \" + LANES + \" domains wait already (\" + words.join(\", \") + \"). \" + deed.name +
      \" will wait until one of them has ended.\";
  }
  const more = waiting.length - 1;
  return who + \" has given \" + words[0] + \" \" + waiting[0].seconds + \" s ago, and it still waits\" +
    (more ? \", with \" + more + \" more about \" + deed.at.name : \"\") + \". \" + deed.name + \" will wait until \" +
    (more ? \"they have ended.\" : \"it has ended.\");
}
function busyWords(deed) {
  const told = deed.at.told, isLong = told && told.busy && told.heard - told.since >= LONG;
  if (!isLong || !(deed.isCommand || deed.isOfMode)) return \"\";
  return deed.at.name + \" has been at work on a command for \" + age(now() - told.since) + \". \" + deed.name +
    \" will wait until that has ended.\";
}
const silenceText = (d) => d.silence < 0 ? \"has not been heard yet\" : \"has been silent for \" + age(d.silence);
function keeperWords(deed) {
  return deed.at.station + \", which keeps \" + deed.at.name + \", \" + silenceText(deed.at) + \". \" + deed.name +
    \" will wait until it is back, and so will what \" + who + \" orders of \" + deed.at.name + \" after it.\";
}
function belowWords(deed, silent) {
  const stations = [...new Set(silent.map((d) => d.station))], many = stations.length > 1;
  const others = held(deed.at).filter((c) => !silent.some((d) => d === c)).map((c) => c.name);
  return stations.join(\", \") + \" \" + (many ? \"are silent\" : silenceText(silent[0])) + \". \" + deed.name +
    \" will hold \" + deed.at.name + \", and nobody will command \" + (others.join(\", \") || deed.at.name) + \" until \" +
    (many ? \"they are back.\" : \"it is back.\");
}
function doubtsOf(deed) {
  const waits = waitingWords(deed) || busyWords(deed), silent = deed.waitsFor();
  const told = isSilent(deed.at) ? keeperWords(deed) : silent.length ? belowWords(deed, silent) : \"\";
  const choices = [[deed.name + \" anyway\", () => give(deed.line())], [\"cancel\", () => {}]];
  if (deed.isCommand && silent.length && !isSilent(deed.at) && !waits) {
    const names = silent.map((d) => d.name);
    choices.unshift([\"make \" + names.join(\", \") + \" manual, then \" + deed.name, () => giveAfterManual(deed, names)]);
  }
  return { words: [waits, told].filter((text) => text).join(\" \"), choices };
}
function confirm(deed) {
  if (whyNobody() || deed.why()) return;
  const { words, choices } = doubtsOf(deed);
  if (words) question(words, choices, choices.length - 1);
  else question(deed.asked, [[\"yes, \" + deed.name, () => give(deed.line())], [\"cancel\", () => {}]], 0);
}
let buttons = [];
let listHere = null;
let offered = \"\";
function showButtons() {
  if (opened) buttons.forEach(([b, deed]) => {
    const why = whyNobody() || deed.why();
    if (b.title !== (why || deed.asked)) b.title = why || deed.asked;
    mark(b, \"aria-disabled\", String(!!why));
  });
}
function ordersOf(d) {
  const box = make(\"section\", \"orders\"), why = make(\"p\"), list = make(\"ol\", \"given\");
  label(list, \"orders about \" + d.name);
  listHere = lister(list);
  why.setAttribute(\"role\", \"status\");
  box.setAttribute(\"aria-label\", \"orders\");
  buttons = deedsOf(d).map((deed) => {
    const b = make(\"button\", \"\", deed.name);
    b.type = \"button\";
    b.dataset.deed = deed.name;
    b.addEventListener(\"click\", () => { set(why, whyNobody() || deed.why()); confirm(deed); });
    return [b, deed];
  });
  box.append(make(\"h3\", \"\", \"orders\"), ...buttons.map(([b]) => b), why, list);
  showButtons();
  return box;
}
function consoleStation() {
  const it = given.find((one) => (one.answer || \"\").startsWith(\"told \" + operatorOf(one) + \" \"));
  const operator = it && tree.operators.find((o) => o.name === operatorOf(it));
  return operator ? operator.station : \"\";
}
function offerOperators() {
  const station = consoleStation();
  const list = tree.operators.filter((o) =>
    !station || o.station === station || o.name === who);
  const text = JSON.stringify(list);
  if (text === offered) return;
  offered = text;
  const none = make(\"option\", \"\", \"nobody\"), stations = [...new Set(list.map((o) => o.station))];
  none.value = \"\";
  by(\"operator\").replaceChildren(none, ...stations.map((name) => {
    const group = make(\"optgroup\");
    group.label = \"station \" + name;
    group.append(...list.filter((o) => o.station === name).map((o) => make(\"option\", \"\", o.name)));
    return group;
  }));
  choose(list.some((o) => o.name === who) ? who : \"\");
  by(\"operator\").value = who;
}
function offerAnew() { offered = \"\"; offerOperators(); }
const BETWEEN = 400, SHOWN = 4, SHOWN_FOR = 20000;
const ended = new Map();
let listAll = null;
function waitsFor(d) {
  if (isSilent(d)) return d.station;
  const below = held(d).filter((c) => !isManual(c));
  const next = below.find(isSilent) || below.find((c) => c.told.busy);
  return next ? waitsFor(next) : d.station;
}
function pathOf(top, low) {
  const path = [];
  for (let at = low; at && at !== top; at = domains.get(at.parent)) path.unshift(at);
  return [top, ...path];
}
function stationOf([verb, name, target]) {
  const d = domains.get(name);
  if (!d) return \"\";
  if (verb === \"do\") return waitsFor(d);
  const parts = isOfMode(verb) && domains.has(target) ? [...pathOf(d, parentOf(target)),
    ...(asksChild(verb) ? [domains.get(target)] : [])] : [d];
  const silent = parts.find(isSilent);
  return silent ? silent.station : d.told && d.told.busy ? waitsFor(d) : d.station;
}
function fateOf(it) {
  if (it.waits) {
    const first = firstBefore(it), station = stationOf(wordsOf(it).slice(1));
    return \"waits \" + it.seconds + \" s\" + (first ? \" until \" + orderOf(first) + \" has ended\"
      : station ? \" for station \" + station : \"\") + (hasBegun(it) ? \", has begun and can't be withdrawn\" : \"\");
  }
  if (it.code !== null) return it.code + \": \" + it.words;
  return it.answer || \"the connection with the console broke: not known how it ended\";
}
function edgeOf(it) {
  if (it.waits) return \"#f2c841\";
  return it.code === 0 ? \"#0ba860\" : it.answer === \"withdrawn\" ? \"#5a5f6d\" : \"#bb1c1c\";
}
function showGiven() {
  const time = performance.now();
  given.forEach((it) => {
    if (it.waits || ended.has(it.number)) return;
    ended.set(it.number, time);
    if (newest) note(it.line + byWhom(it) + \": \" + fateOf(it), liveNow());
  });
  const old = given.filter((it) => !it.waits && time - ended.get(it.number) < SHOWN_FOR).slice(-SHOWN);
  const rows = given.filter((it) => it.waits || old.includes(it)).map((it) => ({ number: it.number,
    order: it.line.slice(6) + byWhom(it), fate: fateOf(it) + (found.has(it.number) ? \"\" : \", not from this page\"),
    edge: edgeOf(it), isFirm: !it.waits || hasBegun(it), names: wordsOf(it).slice(2) }));
  listAll = listAll || lister(by(\"given\"));
  listAll(rows);
  if (opened && listHere) listHere(rows.filter((row) => row.names.includes(opened)));
}
async function followOrders() {
  try {
    const text = await ask(\"/api/orders\"), next = text ? JSON.parse(text) : null;
    connect(!!next && next.console);
    if (next) learn(next.orders);
    learnModes((next && next.modes) || []);
    if (next) learnAcknowledged(next.acknowledged || []);
    tellEnds();
    tellBegun();
  } finally {
    flag(by(\"console\"), \"away\", !hasConsole);
    set(by(\"console\"), hasConsole ? \"orders: connected\" : \"orders: NO CONSOLE\");
    if (tree) { showGiven(); offerOperators(); }
    setTimeout(followOrders, BETWEEN);
  }
}
const chooser = make(\"label\", \"\", \"orders as\"), select = make(\"select\");
chooser.id = \"who\";
select.id = \"operator\";
select.addEventListener(\"change\", () => { choose(select.value); showButtons(); offerOperators(); });
chooser.append(select);
const standing = make(\"span\", \"\", \"orders\"), told = make(\"div\", \"hidden\"), list = make(\"ol\");
standing.id = \"console\";
standing.setAttribute(\"role\", \"status\");
told.id = \"told\";
told.setAttribute(\"role\", \"status\");
list.id = \"given\";
list.className = \"given\";
list.setAttribute(\"aria-label\", \"orders that were given here\");
by(\"clock\").before(chooser, nameField(), ...(asksToken() ? [tokenField()] : []), standing);
by(\"alarms\").after(list, told);
set(by(\"never\"), \"A click orders once you have said yes.\");
extras.push(ordersOf);
modeSayers.push((d) => isPast ? \"\" : modeOf(d) || (d.parent && isManual(d) ? \"manual\" : \"\"));
knowers.push(knowerOf);
acknowledgers.push(acknowledge);
afterBuild.push(offerAnew);
afterShow.push(showButtons);
afterRestart.push(() => location.reload());
if (tree) offerAnew();
followOrders();
</script>
";
