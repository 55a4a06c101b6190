//! Worked scripts are calls with their answers, over tables and over lists in memory, and with each
//! call of the store refused in turn; and over the same where they remember.
mod all_companies;
mod answers;
mod calls;
mod companies;
mod cuts;
mod due;
mod files;
mod incoming;
mod kinds;
mod money;
mod names;
mod old_cut;
mod own_reads;
mod rates;
mod remembered;
mod restarts;
mod script;
mod sequences;
mod status;
mod sums;
