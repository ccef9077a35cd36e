// How a page looks: on a screen of any width and on paper, told apart by shape and not by colour alone.
use page::Sheet;
use std::io;

fn frame(sheet: &mut Sheet) -> io::Result<()> {
    sheet.put(
        b"<style>\n:root{color-scheme:light}*{box-sizing:border-box}\nbody{margin:0 auto;max-width:78rem;padding:1rem;font:15px/1.45 system-ui,-apple-system,'Segoe UI',Roboto,'DejaVu Sans',sans-serif;color:#111;background:#fff}\nh1{font-size:1.6em;line-height:1.2;margin:0 0 .4rem;overflow-wrap:anywhere}h2{font-size:1.15em;margin:1.5rem 0 .4rem}p{margin:.3rem 0;max-width:62rem}a{color:inherit}\nheader{margin:0 0 2rem}article{margin:0 0 2.5rem}article+article{border-top:3px double #555;padding-top:1.2rem}\n",
    )?;
    sheet.put(
        b".verdict{font-size:1.15em;font-weight:600;border-left:.45rem solid #2b6a3d;padding:.1rem 0 .1rem .6rem}.verdict.open{border-left:.45rem double #a3161f;color:#a3161f}\ndl{display:grid;grid-template-columns:max-content minmax(0,1fr);gap:.1rem .9rem;margin:.7rem 0}dt{color:#444}dd{margin:0;overflow-wrap:anywhere}\n.sum,.hex,.bits{font-family:ui-monospace,'DejaVu Sans Mono',Consolas,monospace}\ntable{border-collapse:collapse;margin:.4rem 0}th,td{text-align:left;padding:.12rem .8rem .12rem 0;vertical-align:top}thead th{border-bottom:1px solid #555;font-weight:600}tfoot td,tfoot th{border-top:1px solid #555;font-weight:600}\n.v,td.v,th.v{text-align:right;font-variant-numeric:tabular-nums;white-space:nowrap}\n",
    )
}

// A task is a line that opens: task, bound, deadline, what is to spare, and its bar.
fn lines(sheet: &mut Sheet) -> io::Result<()> {
    sheet.put(
        b".row{display:grid;grid-template-columns:minmax(8rem,14rem) 6.2rem 6.2rem minmax(7.5rem,10.5rem) minmax(12rem,1fr);gap:0 .8rem;align-items:center;padding:.16rem 1.2rem .16rem .6rem}\n.head{border-bottom:1px solid #555;font-weight:600;align-items:end}\n.task{border-bottom:1px solid #ddd}.task>summary{cursor:pointer;list-style:none}.task>summary::-webkit-details-marker{display:none}\n.task .n::before{content:'+ ';font-family:ui-monospace,'DejaVu Sans Mono',Consolas,monospace;color:#555}.task[open] .n::before{content:'\\2212  '}.none .n::before{content:'  '!important}.n{overflow-wrap:anywhere}.n bdi{color:#444}\n",
    )?;
    sheet.put(
        b".open>summary,.none{border-left:.35rem solid #a3161f;padding-left:.25rem}.open .s,.none .s{font-weight:700;color:#a3161f}.c{display:block;color:#444;font-weight:400}.c b{color:#111}\n.h{position:absolute;width:1px;height:1px;overflow:hidden;clip-path:inset(50%);white-space:nowrap}\n.more{padding:.1rem .6rem .8rem 1.4rem;overflow-x:auto}\n",
    )?;
    sheet.put(
        b".axis{position:relative;height:1.3rem;font-weight:400;font-size:.87em;color:#333}.axis span{position:absolute;bottom:0;transform:translateX(-50%);white-space:nowrap}.axis span:first-child{transform:none}\nsvg{display:block;width:100%;height:1.25rem;overflow:visible}svg *{vector-effect:non-scaling-stroke}\n.b{fill:#8a8a8a;stroke:#333;stroke-width:.5}.o{fill:#123b63;stroke:#111;stroke-width:.5}.r{fill:#5f97c8;stroke:#111;stroke-width:.5}.x{fill:#dbe5ee;stroke:#333;stroke-width:.7}.w{fill:none;stroke:#333;stroke-width:1;stroke-dasharray:3 2}.g{stroke:#bbb;stroke-width:1;fill:none}.e{stroke:#777;stroke-width:1;fill:none}\n.d{stroke:#111;stroke-width:2.5;fill:none}.l{fill:none;stroke:#a3161f;stroke-width:2.5}.p{stroke:#111;stroke-width:1.5;stroke-dasharray:2 2;fill:none}\n",
    )
}

fn narrow_and_paper(sheet: &mut Sheet) -> io::Result<()> {
    sheet.put(
        b".key{display:flex;flex-wrap:wrap;gap:.2rem 1.3rem;padding:0;margin:.4rem 0;list-style:none;font-size:.93em}.key li{display:flex;align-items:center;gap:.4rem}.key svg{width:2.2rem;height:1.1rem;flex:none}\n.busy{width:100%;min-width:34rem}.busy td:last-child,.busy th:last-child{width:60%;padding-right:0}.busy svg{height:1.35rem}\nmark{background:#ffe27a;color:#111;outline:2px solid #a3161f;padding:0 .1rem}\n",
    )?;
    sheet.put(
        b"@media screen and (max-width:52rem){.row{grid-template-columns:1fr 1fr;gap:0 .6rem}.row .n,.row .s,.row .w5{grid-column:1/-1}.row .v{text-align:left}.row .h{position:static;width:auto;height:auto;clip-path:none;color:#444;font-weight:400}.head .n,.head .v,.head .s{display:none}}\n",
    )?;
    sheet.put(
        b"@page{margin:14mm 12mm}\n@media print{body{max-width:none;padding:0;font-size:9pt;-webkit-print-color-adjust:exact;print-color-adjust:exact}h2,h3,.head{break-after:avoid}.row,tr,dl{break-inside:avoid}.row{grid-template-columns:minmax(3.6rem,8.5rem) 3.7rem 3.7rem 5.6rem minmax(8rem,1fr);padding:.05rem 1.2rem .05rem .4rem}.key svg{width:1.6rem;height:.8rem}.task:not([open]) .n::before{content:''}svg{height:.85rem}article+article{break-before:page}.more{overflow:visible}}\n</style>\n",
    )
}

pub(crate) fn style(sheet: &mut Sheet) -> io::Result<()> {
    frame(sheet)?;
    lines(sheet)?;
    narrow_and_paper(sheet)
}
