// What stands round the rows: the style, the legend and the headings.
use crate::layout::Layout;
use std::io;

// The title, the colours and the ends of arrows.
const STYLE: &str = r#"<title>A script of calls</title>
<style>
text{font:11px sans-serif;fill:#1f2328}
.number,.call{font-family:monospace}
.number{text-anchor:end;fill:#59636e}
.over{text-anchor:middle}
.ground{fill:#ffffff}
.row{stroke:#e4e8ec}
.opening{stroke:#1f2328}
.refused{fill:#ffdcd7}
.unread{fill:#e4e8ec}
.console{stroke:#818b98;stroke-dasharray:2 2}
.hall{stroke:#818b98;stroke-width:2}
.request{color:#0550ae}
.vote{color:#bc4c00}
.reply{color:#116329}
.arrived,.again,.lost,.left{fill:none;stroke:currentColor}
.again{stroke-dasharray:5 3}
.head{fill:currentColor}
.hollow{fill:#ffffff;stroke:currentColor}
.request.arrived{marker-end:url(#request-arrived)}
.request.again{marker-end:url(#request-again)}
.request.lost{marker-end:url(#request-lost)}
.request.left{marker-end:url(#request-left)}
.vote.arrived{marker-end:url(#vote-arrived)}
.vote.again{marker-end:url(#vote-again)}
.vote.lost{marker-end:url(#vote-lost)}
.vote.left{marker-end:url(#vote-left)}
.reply.arrived{marker-end:url(#reply-arrived)}
.reply.again{marker-end:url(#reply-again)}
.reply.lost{marker-end:url(#reply-lost)}
.reply.left{marker-end:url(#reply-left)}
.done{fill:#1f2328}
.fault{fill:#d1242f}
.fallen{fill:#ffffff;stroke:#1f2328;stroke-width:2}
.clock{fill:#8250df}
</style>
<defs>
<marker id="request-arrived" class="request" overflow="visible" markerUnits="userSpaceOnUse" orient="auto"><path class="head" d="M-8-4L0 0L-8 4z"/></marker>
<marker id="request-again" class="request" overflow="visible" markerUnits="userSpaceOnUse" orient="auto"><path class="hollow" d="M-9-4L-1 0L-9 4z"/></marker>
<marker id="request-lost" class="request" overflow="visible" markerUnits="userSpaceOnUse"><path class="hollow" d="M-4-4L4 4M4-4L-4 4"/></marker>
<marker id="request-left" class="request" overflow="visible" markerUnits="userSpaceOnUse"><circle class="hollow" r="3"/></marker>
<marker id="vote-arrived" class="vote" overflow="visible" markerUnits="userSpaceOnUse" orient="auto"><path class="head" d="M-8-4L0 0L-8 4z"/></marker>
<marker id="vote-again" class="vote" overflow="visible" markerUnits="userSpaceOnUse" orient="auto"><path class="hollow" d="M-9-4L-1 0L-9 4z"/></marker>
<marker id="vote-lost" class="vote" overflow="visible" markerUnits="userSpaceOnUse"><path class="hollow" d="M-4-4L4 4M4-4L-4 4"/></marker>
<marker id="vote-left" class="vote" overflow="visible" markerUnits="userSpaceOnUse"><circle class="hollow" r="3"/></marker>
<marker id="reply-arrived" class="reply" overflow="visible" markerUnits="userSpaceOnUse" orient="auto"><path class="head" d="M-8-4L0 0L-8 4z"/></marker>
<marker id="reply-again" class="reply" overflow="visible" markerUnits="userSpaceOnUse" orient="auto"><path class="hollow" d="M-9-4L-1 0L-9 4z"/></marker>
<marker id="reply-lost" class="reply" overflow="visible" markerUnits="userSpaceOnUse"><path class="hollow" d="M-4-4L4 4M4-4L-4 4"/></marker>
<marker id="reply-left" class="reply" overflow="visible" markerUnits="userSpaceOnUse"><circle class="hollow" r="3"/></marker>
</defs>"#;

// A sample of everything, and the headings of the texts on the left.
const LEGEND: &str = r#"<path class="request arrived" d="M16 16L46 16"/>
<text x="54" y="20">request</text>
<path class="vote arrived" d="M171 16L201 16"/>
<text x="209" y="20">vote</text>
<path class="reply arrived" d="M326 16L356 16"/>
<text x="364" y="20">reply</text>
<rect class="refused" x="481" y="7" width="30" height="18"/>
<text x="519" y="20">refused call</text>
<path class="vote again" d="M16 36L46 36"/>
<text x="54" y="40">delivered again</text>
<path class="vote lost" d="M171 36L201 36"/>
<text x="209" y="40">lost</text>
<path class="vote left" d="M326 36L356 36"/>
<text x="364" y="40">never delivered</text>
<rect class="unread" x="481" y="27" width="30" height="18"/>
<text x="519" y="40">cannot be read</text>
<rect class="done" x="27" y="52" width="8" height="8"/>
<text x="54" y="60">part done</text>
<rect class="fault" x="182" y="52" width="8" height="8"/>
<text x="209" y="60">done with a fault</text>
<rect class="fallen" x="337" y="52" width="8" height="8"/>
<text x="364" y="60">part fell</text>
<path class="clock" d="M496 51l5 5l-5 5l-5-5z"/>
<text x="519" y="60">clock set</text>
<text class="number" x="44" y="88">line</text>
<text class="call" x="54" y="88">call</text>"#;

pub(crate) fn print_frame(rt: &impl Print, at: &Layout) -> io::Result<()> {
    let width = at.width;
    let height = at.height;
    let right = at.right;
    println!(rt;
        "<svg xmlns=\"http://www.w3.org/2000/svg\" width=\"{width}\" height=\"{height}\" viewBox=\"0 0 {width} {height}\">"
    )?;
    println!(rt; "{STYLE}")?;
    println!(rt; "<rect class=\"ground\" width=\"{width}\" height=\"{height}\"/>")?;
    println!(rt; "{LEGEND}")?;
    println!(rt; "<text x=\"{right}\" y=\"88\">what it told of which transaction</text>")
}
