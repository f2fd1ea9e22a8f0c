// Runs document 01's worked rows and jobs, and further vectors, against the code of `row` and `job`.
// Each line has what must be, what is, and the verdict. What must be is written out: from document
// 01 and the requests, or worked out from its masks apart from `row`.
#![tactic(auto)]

mod between;
mod codes;
mod damage;
mod double_damage;
mod job_cases;
mod job_cuts;
mod job_lines;
mod job_tallies;
mod job_versions;
mod places;
mod read_lines;
mod samples;
mod single_bits;
mod table;
mod vote_places;
mod votes;
mod worked_rows;
mod write_lines;
mod writes;

use screen::say_line;
use table::Table;

fn rows(table: &mut Table) {
    worked_rows::run(table);
    codes::run(table);
    damage::run(table);
    double_damage::run(table);
    writes::run(table);
    between::run(table);
    single_bits::run(table);
    votes::run(table);
    vote_places::run(table);
}

fn jobs(table: &mut Table) {
    job_cases::run(table);
    job_cuts::run(table);
    job_tallies::run(table);
    job_versions::run(table);
}

fn main(rt: HostRuntime) {
    say_line!(&rt;
        "The code of row and job against document 01: what must be, what is, and the verdict"
    );
    let mut table = Table::new(&rt);
    rows(&mut table);
    jobs(&mut table);
    table.last_line();
}
