//! What is the same on the page of each story.

/// What stands before the lines.
pub(crate) const BEGINNING: &[u8] = b"<!doctype html>
<html lang='en'><meta charset='utf-8'><meta name='viewport' content='width=device-width'><title>The story of a script</title>
<style>
body{font:15px/1.45 system-ui,sans-serif;margin:0;display:grid;grid-template-columns:minmax(220px,22rem) 1fr;height:100vh;color:#222;
background:#fff}
ol{margin:0;padding:8px 0;overflow:auto;border-right:1px solid #ccc;list-style:none;font:13px/1.5 ui-monospace,DejaVu Sans Mono,monospace}
li{padding:1px 12px;cursor:pointer;white-space:pre-wrap;overflow-wrap:anywhere}
li.on{background:#e3ecf8;box-shadow:inset 3px 0 #1f5fa8}
li i{color:#666;font-style:normal;display:block;padding-left:14px}
main{padding:16px 20px;overflow:auto}
section{display:none}
section.on{display:block}
p{margin:4px 0;max-width:58rem}
h1{font:bold 15px/1.4 ui-monospace,DejaVu Sans Mono,monospace;margin:0 0 8px;overflow-wrap:anywhere}
nav{color:#666;font-size:13px;margin-bottom:10px}
svg{display:block;margin-top:8px}
@media(max-width:900px){body{grid-template:35vh 1fr/1fr}ol{border:0;border-bottom:1px solid #ccc}}
</style>
<ol>";

/// What stands between the lines and what is told of each.
pub(crate) const MIDDLE: &[u8] =
    b"</ol><main><nav>Arrow keys or a click go from line to line. The sentences say what a read of the
line finds, and the picture is the table behind the line. Resting on a dot shows why a session sees a version, or does not.</nav>";

/// What stands at the end.
pub(crate) const END: &[u8] = b"</main>
<script>
const lines = [...document.querySelectorAll('li')], told = [...document.querySelectorAll('section')];
let at = -1;
function show(n) {
  n = Math.max(0, Math.min(lines.length - 1, n));
  if (n === at) return;
  at = n;
  for (const all of [lines, told]) all.forEach((one, i) => one.classList.toggle('on', i === at));
  lines[at].scrollIntoView({block: 'nearest'});
  history.replaceState(null, '', '#' + (at + 1));
}
function asked() { show((parseInt(location.hash.slice(1)) || 1) - 1); }
lines.forEach((line, i) => line.onclick = () => show(i));
addEventListener('hashchange', asked);
addEventListener('keydown', key => {
  const step = {ArrowDown: 1, ArrowRight: 1, ArrowUp: -1, ArrowLeft: -1}[key.key];
  if (step && !key.altKey && !key.ctrlKey && !key.metaKey) { show(at + step); key.preventDefault(); }
});
asked();
</script></html>
";
