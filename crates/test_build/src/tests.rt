mod bad;
mod disk;
mod faults;
mod install;
mod made;
mod output;
mod run;
mod shared;
