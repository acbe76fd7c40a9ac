//! Steps and options on the store.

use std::alloc::{AllocError, Global};
use std::test::Fail;
use tabled_grid::config::SpannedConfig;
use tabled_options::{Settings, TableOption};
use tabled_own_store::TextColumns;
use tabled_select::object::Rows;
use tabled_settings::panel::Panel;
use tabled_settings::reverse::Reverse;
use tabled_settings::rotate::Rotate;
use tabled_settings::split::Split;
use tabled_steps::{Step, run};
use tabled_testing::{is_word, spelled_merged};

/// The store `a b c / d e f`.
fn letters(alloc: Global) -> Result<TextColumns, AllocError> {
    let columns = vec![in alloc;
        vec![in alloc;
            String::from_str(alloc, "a")?,
            String::from_str(alloc, "d")?
        ]?,
        vec![in alloc;
            String::from_str(alloc, "b")?,
            String::from_str(alloc, "e")?
        ]?,
        vec![in alloc;
            String::from_str(alloc, "c")?,
            String::from_str(alloc, "f")?
        ]?,
    ]?;
    Ok(TextColumns::new(2, columns))
}

#[test]
fn runs_steps(rt: HostRuntime) -> Result<(), Fail> {
    let alloc = rt.alloc();
    let mut records = letters(alloc)?;
    let mut cfg = SpannedConfig::new(alloc);
    let title = String::from_str(alloc, "t")?;
    let steps = vec![in alloc;
        (Step::Rotate(Rotate::Left), "c f / b e / a d /"),
        (Step::Reverse(Reverse::rows(1)), "c f / a d / b e /"),
        (Step::Reverse(Reverse::columns(0)), "f c / d a / e b /"),
        (Step::RemoveRows(1, 2), "f c / e b /"),
        (
            Step::VerticalPanel(Panel::vertical(1, title)),
            "f t c / e _ b / 0.1:2x1"
        ),
        (Step::RemoveColumns(0, 1), "t c / _ b / 0.0:2x1"),
        (Step::Split(Split::column(1)), "t / c / _ / b /"),
    ]?;
    for (step, want) in steps {
        let done = run(alloc, &mut records, &mut cfg, vec![in alloc; step]?);
        assert!(rt; done.is_ok());
        assert!(rt; is_word(spelled_merged(alloc, &records, &cfg), want));
    }
    Ok(())
}

#[test]
fn is_changed_by_settings(rt: HostRuntime) -> Result<(), Fail> {
    let alloc = rt.alloc();
    let mut records = letters(alloc)?;
    let mut cfg = SpannedConfig::new(alloc);
    let title = String::from_str(alloc, "t")?;
    let settings = Settings::empty()
        .modify(Rows::first(), String::from_str(alloc, "x")?)
        .with(Rotate::Right)
        .with(Panel::header(title));
    settings.change(alloc, &mut records, &mut cfg, &mut ())?;
    let want = "t _ / d x / e x / f x / 0.0:1x2";
    assert!(rt; is_word(spelled_merged(alloc, &records, &cfg), want));
    Ok(())
}
