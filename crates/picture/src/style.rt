/// How the parts of a picture look.
pub const STYLE: &str = "\
<style type=\"text/css\">
text{font-family:monospace;font-size:11px;fill:#24292f}
.line,.detail{fill:#6e7781}
.line{text-anchor:end}
.name{font-size:12px;font-weight:bold;text-anchor:middle}
.note,.missed{font-size:10px}
.missed{fill:#cf222e}
.page{fill:#ffffff}
.band{fill:#f3f5f7}
.plate{fill:#ffffff}
path{fill:none;stroke-width:1}
.follows{stroke:#8c959f}
.leads{stroke:#24292f;stroke-width:3}
.waits{stroke:#8c959f;stroke-dasharray:3,4}
.arrow{stroke-width:1.3}
.request{stroke:#0969da}
.reply{stroke:#1a7f37}
.peer{stroke:#8250df}
.control{stroke:#9a6700}
.again{opacity:0.35}
.arrow.request,.again.request{marker-end:url(#request)}
.arrow.reply,.again.reply{marker-end:url(#reply)}
.arrow.peer,.again.peer{marker-end:url(#peer)}
.arrow.control,.again.control{marker-end:url(#control)}
.lost{stroke-dasharray:2,4;stroke-opacity:0.6}
.cross{stroke:#cf222e;stroke-width:1.6}
.submit,.stamp{fill:#0969da}
.accept{fill:#1a7f37}
.refuse{stroke:#6e7781;stroke-width:1.6}
.session{fill:#9a6700}
.log{fill:#24292f}
.noop{fill:#ffffff;stroke:#cf222e;stroke-width:1.6}
.checkpoint{fill:#ffffff;stroke:#24292f;stroke-width:1.6}
.enter{fill:#ffffff;stroke:#8250df;stroke-width:1.6}
.start{fill:#8250df}
.sync{fill:#0550ae}
.crash{stroke:#cf222e;stroke-width:3}
.act{fill:#6e7781}
.idle{fill:#ffffff;stroke:#6e7781}
</style>
";

/// The heads of arrows: their names in the style, and their colours.
pub const ARROW_HEADS: [(&str, &str); 4] = [
    ("request", "#0969da"),
    ("reply", "#1a7f37"),
    ("peer", "#8250df"),
    ("control", "#9a6700"),
];

/// Between the name of an arrow's head and its colour.
pub const ARROW_HEAD: &str =
    "\" viewBox=\"0 0 8 8\" refX=\"12\" refY=\"4\" markerWidth=\"8\" markerHeight=\"8\" \
    markerUnits=\"userSpaceOnUse\" orient=\"auto\"><path d=\"M0,0L8,4L0,8z\" style=\"fill:";
