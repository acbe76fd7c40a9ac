//! Texts that a page may take for something else.

use std::alloc::Global;
use std::test::Fail;
use tabled_grid::config::{Entity, SpannedConfig};
use tabled_html::{Page, write_with};
use tabled_options::CellOption;
use tabled_testing::flat;

/// Texts, and what stands for each of them in a cell and in a caption.
const TEXTS: [(&str, &str); 10] = [
    (
        "<script>alert('1 & 2')</script>",
        "&lt;script&gt;alert('1 &amp; 2')&lt;/script&gt;",
    ),
    (
        "</td></tr></table><!-- ]]> <![CDATA[ -->",
        "&lt;/td&gt;&lt;/tr&gt;&lt;/table&gt;&lt;!-- ]]&gt; &lt;![CDATA[ --&gt;",
    ),
    (
        "&amp;&lt;&#65;&notin&",
        "&amp;amp;&amp;lt;&amp;#65;&amp;notin&amp;",
    ),
    (
        "\"' onload=\"x` \\ {{ x }} %3C",
        "\"' onload=\"x` \\ {{ x }} %3C",
    ),
    ("a\r\nb\rc\nd\t e", "a&#13;\nb&#13;c\nd\t e"),
    ("\u{0}x\u{0}", "\u{fffd}x\u{fffd}"),
    (
        "\u{1}\u{b}\u{c}\u{1b}\u{7f}\u{80}\u{9f}",
        "\u{1}\u{b}\u{c}\u{1b}\u{7f}\u{80}\u{9f}",
    ),
    (
        "\u{85}\u{2028}\u{2029}\u{feff}\u{fffe}\u{ffff}",
        "\u{85}\u{2028}\u{2029}\u{feff}\u{fffe}\u{ffff}",
    ),
    (
        "\u{1f44d}\u{1f3fd}\u{200d}\u{e0067}\u{202e}\u{6f22}e\u{301}",
        "\u{1f44d}\u{1f3fd}\u{200d}\u{e0067}\u{202e}\u{6f22}e\u{301}",
    ),
    ("", ""),
];

/// Whether a text is written so, in a cell and in the caption.
fn is_written(alloc: Global, text: &str, html: &str) -> Result<bool, Fail> {
    let mut records = flat(alloc, "_ /")?;
    let cell = String::from_str(alloc, text)?;
    cell.change(alloc, &mut records, &mut (), Entity::Cell(0, 0))?;
    let mut bytes = Vec::new(alloc);
    let page = Page::new().caption(text);
    let is_done = write_with(
        alloc,
        &mut bytes,
        &records,
        &SpannedConfig::new(alloc),
        &page,
    )
    .is_ok();
    let want = format!(in alloc;
        "<table>\n<caption>{html}</caption>\n<tbody>\n<tr><td>{html}</td></tr>\n</tbody>\n</table>\n"
    )?;
    Ok(is_done && bytes.as_slice() == want.as_bytes())
}

#[test]
fn stand_for_themselves(rt: HostRuntime) -> Result<(), Fail> {
    for &(text, html) in &TEXTS {
        assert!(rt; is_written(rt.alloc(), text, html)?, "{text:?}");
    }
    Ok(())
}
