//! The jobs of the program, over an opener of files and a writer.
//!
//! [`run_job`](run::run_job) does a job. What it is given to read comes from an [`Opener`], so a program that has its
//! files elsewhere can do the same jobs.
#![tactic(auto)]

mod answers;
pub mod aside;
pub mod by_head;
mod dumps;
pub mod each;
pub mod ending;
pub mod fault;
pub mod file_run;
mod formats;
mod growth;
mod hint;
mod hunted;
pub mod identified;
pub mod identify;
mod inner_list;
pub mod installed;
mod long_name;
pub mod many_files;
pub mod names;
pub mod one_file;
pub mod opener;
mod part_copy;
mod pickles;
mod place_names;
mod record_list;
pub mod run;
pub mod settings;
mod task;
mod usage;
mod value_search;
pub mod why;

pub use answers::report_in_json;
pub use aside::Aside;
pub use ending::Ending;
pub use fault::FileFault;
pub use installed::Installed;
pub use opener::{GivenName, Lengthless, NamedPickle, Opener};
pub use run::run_job;
