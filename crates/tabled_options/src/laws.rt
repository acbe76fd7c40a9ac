//! Laws of what options do and leave. Each is the contract of a function that does nothing.

ghost use Rattle.std.specs.Prelude.{◌≡◌, true};
ghost use Rattle.tabled_grid.specs.Entity.{names};
ghost use Rattle.tabled_grid.specs.declared.config.entity.Entity.{Entity};
ghost use Rattle.tabled_options.specs.Does.{OptionKeeps};
ghost use Rattle.tabled_options.specs.Hints.{combined};
ghost use Rattle.tabled_options.specs.Kept.{CellCopiedAsPair, CopiedAsAll, CopiedAsPair, KeepsFittingOnEach, KeptByAll, KeptByPair, KeptOnEachByPair};
ghost use Rattle.tabled_options.specs.Shapes.{FitsInSameShape};

use crate::cell_option::CellOption;
use crate::modify::ModifyList;
use crate::option_list::OptionSlice;
use crate::property::Property;
use crate::settings_list::Settings;
use crate::table_option::TableOption;
use crate::writers::TextRef;
use tabled_grid::config::{Entity, Position, SpannedConfig};
use tabled_grid::records::{CellText, ExactRecords, GridStore, Records, RecordsMut};
use tabled_select::object::Object;

/// Two entities combine to the same one either way.
pub fn combined_either_way(_a: Entity, _b: Entity)
    ensures same { combined _a _b ≡ combined _b _a }
{}

/// What two entities combine to names each place that one of them names.
pub fn combined_names_both(_a: Entity, _b: Entity, _pos: Position)
    ensures first { names _a _pos ≡ true → names (combined _a _b) _pos ≡ true }
    ensures second { names _b _pos ≡ true → names (combined _a _b) _pos ≡ true }
{}

/// Copies of settings on tables, and of pairs, are like them where those of their parts are.
pub fn settings_copied<R, C, D, A, B>(_a: &A, _b: &B)
where
    R: GridStore,
    A: TableOption<R, C, D> + Clone,
    B: TableOption<R, C, D> + Clone + Drop,
    ensures settings { CopiedAsPair A.Clone A.TableOption B.Clone B.TableOption
        ⟦<Settings<A, B> as Clone>⟧ ⟦<Settings<A, B> as TableOption<R, C, D>>⟧ _a.now _b.now }
    ensures pairs { CopiedAsPair A.Clone A.TableOption B.Clone B.TableOption
        ⟦<(A, B) as Clone>⟧ ⟦<(A, B) as TableOption<R, C, D>>⟧ _a.now _b.now }
{}

/// Copies of settings on cells, and of pairs, are like them where those of their parts are.
pub fn cell_settings_copied<R, C, A, B>(_a: &A, _b: &B)
where
    R: GridStore,
    A: CellOption<R, C> + Clone,
    B: CellOption<R, C> + Clone + Drop,
    ensures settings { CellCopiedAsPair A.Clone A.CellOption B.Clone B.CellOption
        ⟦<Settings<A, B> as Clone>⟧ ⟦<Settings<A, B> as CellOption<R, C>>⟧ _a.now _b.now }
    ensures pairs { CellCopiedAsPair A.Clone A.CellOption B.Clone B.CellOption
        ⟦<(A, B) as Clone>⟧ ⟦<(A, B) as CellOption<R, C>>⟧ _a.now _b.now }
{}

/// Copies of a vector of options are like it, item by item, where those of its items are.
pub fn vectors_copied<R, C, D, T>(_options: &Vec<T>)
where
    R: GridStore,
    T: TableOption<R, C, D> + Clone + Drop,
    ensures vector { CopiedAsAll T.Clone T.TableOption ⟦<Vec<T> as Clone>⟧ ⟦<Vec<T> as TableOption<R, C, D>>⟧ _options.now.items _options.now }
{}

/// Settings on tables, and pairs, keep what both of their parts keep, also where they are refused.
///
/// A longer tuple is the settings of the parts before its last one, and of that one.
pub fn settings_keep<P, R, C, D, A, B>(_first: &A, _second: &B)
where
    R: GridStore,
    P: Property<R::Cell, C>,
    A: TableOption<R, C, D>,
    B: TableOption<R, C, D> + Drop,
    ensures settings { KeptByPair P.holds A.TableOption B.TableOption ⟦<Settings<A, B> as TableOption<R, C, D>>⟧ _first.now _second.now }
    ensures pairs { KeptByPair P.holds A.TableOption B.TableOption ⟦<(A, B) as TableOption<R, C, D>>⟧ _first.now _second.now }
{}

/// Settings on cells, and pairs, keep on an entity what both of their parts keep on it.
pub fn cell_settings_keep<P, R, C, A, B>(_first: &A, _second: &B)
where
    R: GridStore,
    P: Property<R::Cell, C>,
    A: CellOption<R, C>,
    B: CellOption<R, C> + Drop,
    ensures settings { KeptOnEachByPair P.holds A.CellOption B.CellOption ⟦<Settings<A, B> as CellOption<R, C>>⟧ _first.now _second.now }
    ensures pairs { KeptOnEachByPair P.holds A.CellOption B.CellOption ⟦<(A, B) as CellOption<R, C>>⟧ _first.now _second.now }
{}

/// A vector of options keeps what each of them keeps.
pub fn vectors_keep<P, R, C, D, T>(_options: &Vec<T>)
where
    R: GridStore,
    P: Property<R::Cell, C>,
    T: TableOption<R, C, D> + Drop,
    ensures vector { KeptByAll P.holds T.TableOption ⟦<Vec<T> as TableOption<R, C, D>>⟧ _options.now.items _options.now }
{}

/// A slice of options keeps what each of them keeps.
pub fn slices_keep<'a, P, R, C, D, T>(_options: &OptionSlice<'a, T>)
where
    R: GridStore,
    P: Property<R::Cell, C>,
    T: TableOption<R, C, D> + Clone,
    ensures slice { KeptByAll P.holds T.TableOption ⟦<OptionSlice<'a, T> as TableOption<R, C, D>>⟧ _options.now.0.now _options.now }
{}

/// An option on what an object lists keeps what it keeps on each entity.
pub fn modified_keep<P, R, C, D, O, M>(_object: &O, _option: &M)
where
    R: Records + ExactRecords,
    P: Property<R::Cell, C>,
    O: Object<R> + Drop,
    M: CellOption<R, C> + Clone,
    ensures each { ((e : Entity) → OptionKeeps P.holds (M.does _option.now e) (M.leaves _option.now e)) → OptionKeeps P.holds
        (⟦<ModifyList<O, M> as TableOption<R, C, D>>⟧.does (_object.now, _option.now))
        (⟦<ModifyList<O, M> as TableOption<R, C, D>>⟧.leaves (_object.now, _option.now)) }
{}

/// An option on cells that leaves the numbers of rows and columns and the configuration, done or refused,
/// keeps merged cells inside the table and apart.
pub fn same_shape_keeps_merged_cells_fitting<R, M>(_option: &M)
where
    R: Records + ExactRecords,
    M: CellOption<R, SpannedConfig>,
    ensures cells { (e : Entity) → FitsInSameShape (M.does _option.now e) (M.leaves _option.now e) }
{}

/// So does such an option on tables.
pub fn same_table_shape_keeps_merged_cells_fitting<R, D, T>(_option: &T)
where
    R: GridStore,
    T: TableOption<R, SpannedConfig, D>,
    ensures table { FitsInSameShape (T.does _option.now) (T.leaves _option.now) }
{}

/// A string on an entity keeps merged cells inside the table and apart, also where it is refused.
pub fn strings_keep_merged_cells_fitting<R>(_text: &String)
where
    R: Records + ExactRecords + RecordsMut<String>,
    R::Cell: CellText,
    ensures cells { KeepsFittingOnEach ⟦<String as CellOption<R, SpannedConfig>>⟧ _text.now }
{}

/// A text that is lent does so, too.
pub fn lent_texts_keep_merged_cells_fitting<'a, R>(_text: TextRef<'a>)
where
    R: Records + ExactRecords + RecordsMut<&'a str>,
    R::Cell: CellText,
    ensures cells { KeepsFittingOnEach ⟦<TextRef<'a> as CellOption<R, SpannedConfig>>⟧ _text.entry }
{}
