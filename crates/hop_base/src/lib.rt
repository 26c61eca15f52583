//! What every crate of `hop` stands on: the limits, byte strings, values and pairs in their orders,
//! sorted sheets, also as bytes, small lists, the words of a command line, and the settings and the name of a run.
#![tactic(auto)]

pub mod blob;
pub mod flat_builder;
pub mod flat_sheet;
pub mod lens;
pub mod limits;
pub mod listed;
pub mod marks;
pub mod memory;
pub mod pair_view;
pub mod part;
pub mod run_name;
pub mod settings;
pub mod sheet;
pub mod value;
pub mod words;

pub use blob::{Blob, BlobFault};
pub use flat_builder::FlatSheetBuilder;
pub use flat_sheet::{FlatSheet, FlatSheets};
pub use lens::Lens;
pub use listed::{Listed, Sheets, Text, Texts};
pub use marks::Marks;
pub use memory::NoMemory;
pub use pair_view::PairView;
pub use part::Part;
pub use run_name::RunName;
pub use settings::Settings;
pub use sheet::Sheet;
pub use value::{Pair, Val};
pub use words::Words;
