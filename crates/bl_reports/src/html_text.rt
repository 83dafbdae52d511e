//! The fixed text of the page. It writes names as text and never as HTML, and its policy lets it take nothing from elsewhere.

/// What stands before the JSON.
pub const FRONT: &str = r##"<!DOCTYPE html>
<html lang="en">
<head>
<meta charset="utf-8">
<meta http-equiv="Content-Security-Policy" content="default-src 'none'; style-src 'unsafe-inline'; script-src 'unsafe-inline'">
<title>build</title>
<style>
body { font: 14px system-ui, sans-serif; margin: 1em; color: #222; }
h1 { font-size: 1.2em; margin: 0; overflow-wrap: anywhere; }
canvas { display: block; width: 100%; cursor: crosshair; }
#tip { min-height: 1.4em; margin: .3em 0 1em; overflow-wrap: anywhere; }
table { border-collapse: collapse; }
td, th { padding: .1em .8em; text-align: left; }
td.time { text-align: right; font-variant-numeric: tabular-nums; }
tbody tr { cursor: pointer; }
tr.critical td:first-child { border-left: .4em solid #c33; }
.key { display: inline-block; width: 1em; height: .8em; margin: 0 .3em 0 1em; }
</style>
</head>
<body>
<h1 id="words"></h1>
<p id="told"></p>
<p><input id="search" type="search" placeholder="part of a target's name"> <span id="found"></span>
<button id="whole">whole run</button>
<span class="key" style="background:#69c"></span>recipe<span class="key" style="background:#c33"></span>critical path
<span class="key" style="background:#222"></span>failed or cut off<span class="key" style="background:#393"></span>commit
<span class="key" style="background:#e8e8e8"></span>idle</p>
<canvas id="lanes"></canvas>
<p id="tip"></p>
<table id="longest"><caption>The longest recipes</caption>
<thead><tr><th>target</th><th>time</th><th>began</th><th>worker</th><th>ended</th></tr></thead><tbody></tbody></table>
<script type="application/json" id="data">
"##;

/// What stands behind it.
pub const BACK: &str = r##"
</script>
<script>
"use strict";
const { run, recipes } = JSON.parse(document.getElementById("data").textContent);
const at = (id) => document.getElementById(id);
const seconds = (ns) => (ns / 1e9).toFixed(3) + " s";
const ROW = 24, TOP = 22, LONGEST = 50;
const lanes = [...new Set([...Array(Math.min(run.workers, 256)).keys(), ...recipes.map((r) => r.worker)])].sort((a, b) => a - b);
const laneOf = new Map(lanes.map((worker, lane) => [worker, lane + 1]));
const whole = { from: 0, to: Math.max(run.time, 1) };
let view = { ...whole }, wanted = "", chosen = null, drag = null;

document.title = "build: " + run.words;
at("words").textContent = run.words;
at("told").textContent = "run " + run.number + ", " + recipes.length + " recipes, " + run.workers + " workers, wall time "
    + seconds(run.time) + ", critical path " + seconds(run.critical)
    + (run.status === null ? ", cut off before its end" : ", status " + run.status);

const canvas = at("lanes"), pen = canvas.getContext("2d");
const place = (ns) => (ns - view.from) / (view.to - view.from) * canvas.clientWidth;
const time = (x) => view.from + x / canvas.clientWidth * (view.to - view.from);
const fits = (r) => wanted === "" || r.target.includes(wanted);
const colour = (r) => r.how ? "#222" : r.critical ? "#c33" : "#69c";

function bar(r) {
    const x = place(r.begin), y = TOP + laneOf.get(r.worker) * ROW, width = Math.max(place(r.end) - x, 1);
    pen.globalAlpha = fits(r) ? 1 : .2;
    pen.fillStyle = colour(r);
    pen.fillRect(x, y + 2, width, ROW - 4);
    if (r === chosen) {
        pen.strokeStyle = "#f80";
        pen.lineWidth = 3;
        pen.strokeRect(x, y + 2, width, ROW - 4);
    }
    if (width > 30) {
        const left = Math.max(x, 0);
        pen.save();
        pen.beginPath();
        pen.rect(left, y, Math.min(x + width, canvas.clientWidth) - left - 2, ROW);
        pen.clip();
        pen.fillStyle = "#fff";
        pen.fillText(r.target, left + 3, y + ROW / 2);
        pen.restore();
    }
}

function scale() {
    const steps = 10 ** Math.floor(Math.log10(view.to - view.from));
    const step = (view.to - view.from) / steps < 3 ? steps / 5 : steps;
    pen.fillStyle = "#222";
    for (let ns = Math.ceil(view.from / step) * step; ns <= view.to; ns += step) {
        pen.fillRect(place(ns), TOP - 4, 1, 4);
        pen.fillText(+(ns / 1e9).toPrecision(9) + " s", place(ns) + 2, TOP / 2);
    }
}

function draw() {
    const ratio = window.devicePixelRatio || 1, height = TOP + (lanes.length + 1) * ROW;
    canvas.style.height = height + "px";
    canvas.width = canvas.clientWidth * ratio;
    canvas.height = height * ratio;
    pen.scale(ratio, ratio);
    pen.font = "12px system-ui, sans-serif";
    pen.textBaseline = "middle";
    pen.fillStyle = "#e8e8e8";
    for (let lane = 0; lane <= lanes.length; lane++) pen.fillRect(0, TOP + lane * ROW + 2, canvas.clientWidth, ROW - 4);
    scale();
    pen.fillStyle = "#393";
    for (const c of run.commits)
        if (c.end >= view.from && c.begin <= view.to)
            pen.fillRect(place(c.begin), TOP + 2, Math.max(place(c.end) - place(c.begin), 1), ROW - 4);
    // Bars that lie in a pixel of one before it aren't seen: those are left out, unless they are to be seen.
    const drawn = new Map(), last = [];
    for (const r of recipes) {
        if (r.end < view.from || r.begin > view.to) continue;
        if (r.critical || r.how || r === chosen || (wanted !== "" && fits(r))) { last.push(r); continue; }
        const right = place(r.end);
        if (right < drawn.get(r.worker) + 1) continue;
        drawn.set(r.worker, right);
        bar(r);
    }
    last.forEach(bar);
    pen.globalAlpha = 1;
}

function told(r) {
    return r.target + ": " + seconds(r.end - r.begin) + ", began at " + seconds(r.begin) + ", worker " + r.worker
        + (r.critical ? ", on the critical path" : "") + (r.how ? ", " + r.how : "");
}

function under(event) {
    const box = canvas.getBoundingClientRect(), ns = time(event.clientX - box.left);
    const lane = Math.floor((event.clientY - box.top - TOP) / ROW), slack = (view.to - view.from) / canvas.clientWidth;
    if (lane === 0) {
        const c = run.commits.find((c) => c.begin - slack <= ns && ns <= c.end + slack);
        return c ? "commit of " + c.records + " records: " + seconds(c.end - c.begin) + ", on the disk at " + seconds(c.end) : "";
    }
    const r = recipes.find((r) => laneOf.get(r.worker) === lane && r.begin <= ns && ns <= Math.max(r.end, r.begin + slack));
    return r ? told(r) : lane > 0 && lane <= lanes.length ? "worker " + lanes[lane - 1] + " idle at " + seconds(ns) : "";
}

function show(from, to) {
    const width = Math.min(Math.max(to - from, 1000), whole.to);
    const first = Math.min(Math.max(from, 0), whole.to - width);
    view = { from: first, to: first + width };
    draw();
}

function choose(r) {
    const margin = Math.max(r.end - r.begin, 1000) * 2;
    chosen = r;
    at("tip").textContent = told(r);
    show(r.begin - margin, r.end + margin);
}

canvas.addEventListener("wheel", (event) => {
    event.preventDefault();
    const ns = time(event.clientX - canvas.getBoundingClientRect().left), by = 1.0015 ** event.deltaY;
    show(ns - (ns - view.from) * by, ns + (view.to - ns) * by);
}, { passive: false });
canvas.addEventListener("mousedown", (event) => { drag = { x: event.clientX, ...view }; });
window.addEventListener("mouseup", () => { drag = null; });
canvas.addEventListener("mousemove", (event) => {
    if (drag === null) { at("tip").textContent = under(event); return; }
    const by = (event.clientX - drag.x) / canvas.clientWidth * (drag.to - drag.from);
    show(drag.from - by, drag.to - by);
});
at("whole").addEventListener("click", () => { chosen = null; show(whole.from, whole.to); });
at("search").addEventListener("input", (event) => {
    wanted = event.target.value;
    const found = recipes.reduce((count, r) => count + fits(r), 0);
    at("found").textContent = wanted === "" ? "" : found + " of " + recipes.length;
    draw();
});
at("search").addEventListener("keydown", (event) => {
    if (event.key !== "Enter") return;
    const found = recipes.filter(fits);
    if (found.length > 0) choose(found[(found.indexOf(chosen) + 1) % found.length]);
});
window.addEventListener("resize", draw);

for (const r of [...recipes].sort((a, b) => (b.end - b.begin) - (a.end - a.begin)).slice(0, LONGEST)) {
    const row = at("longest").tBodies[0].insertRow();
    for (const text of [r.target, seconds(r.end - r.begin), seconds(r.begin), r.worker, r.how || "status 0"])
        row.insertCell().textContent = text;
    row.cells[1].className = row.cells[2].className = "time";
    if (r.critical) row.className = "critical";
    row.addEventListener("click", () => choose(r));
}
draw();
</script>
</body>
</html>
"##;
