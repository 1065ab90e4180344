//! A page of HTML whose texts have markup.

use droid_report::{Body, Page, Table};
use std::test::Fail;

#[test]
fn no_text_becomes_markup(rt: HostRuntime) -> Result<(), Fail> {
    let alloc = rt.alloc();
    let tables: Vec<Table> = Vec::new(alloc);
    let body = Body {
        title: "a < b",
        about: "made by hand",
        tables: tables.as_slice(),
    };
    let body = format!(in alloc; "{body}")?;
    let page = Page {
        title: "a < b",
        body: body.as_str(),
    };
    let text = format!(in alloc; "{page}")?;
    assert!(rt;
        text.as_str()
            .contains("<main><h1>a &lt; b</h1><p>made by hand</p></main>")
    );
    Ok(())
}
