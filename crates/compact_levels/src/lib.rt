//! Merging the files of a replica: which files are due to be merged into one of a higher level, and the merge.
//!
//! Files pile up in a level, and the next level takes in what piled up behind the end of its own files. Level 9
//! takes in the whole chain to the newest transaction. A run is due where a multiple of the level's interval came
//! since the level's last file. `due` takes no memory, and passes over the names a few times.
//!
//! `merge` stores the file of a run that is due: as many pages as the run's last file leaves, each from the last file
//! that has it. It has its name whole or not at all, whatever a crash takes, and each refusal tells its cause.
//! `merges_keep_faith` is the law that the merge of files that tell the truth about a database does so too.
//!
//! `specs/Run.antt` says, over names alone, which files a run has, and `specs/Merged.antt` what their merge is.
//!
//! Stands on `ls_base`, `crash_disk`, `ltx_format`, `replica_store`, `restore_plan`, and `page_cursors`, which reads
//! many files side by side.
#![tactic(auto)]

mod draft;
mod due_run;
mod files;
mod last;
mod law;
mod merge_fault;
mod merging;
mod moment;
mod pile;
mod run;
mod run_files;
#[cfg(test)]
mod tests;
mod whole;

pub use due_run::due;
pub use law::merges_keep_faith;
pub use merge_fault::MergeFault;
pub use merging::merge;
pub use run::Run;
