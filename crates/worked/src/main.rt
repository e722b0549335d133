// Runs every worked line and every limit, and prints one line of text for each case.
#![tactic(auto)]

mod build;
mod furthest;
mod growing;
mod limits;
mod lines;
mod long_lines;
mod loops;
mod rows;
mod say;
mod sheets;
mod tables;

fn main() {
    lines::sheet_a();
    lines::sheet_b();
    lines::unused_rules();
    lines::other_sheets();
    growing::rule_0_above();
    growing::indirect();
    growing::hidden();
    lines::doubling();
    furthest::looking_ahead();
    furthest::refused();
    furthest::kept_answers();
    furthest::attempts();
    furthest::few_ranges();
    furthest::too_deep();
    limits::line_length();
    limits::room();
    limits::working_numbers();
    limits::allowance();
    limits::open_visits();
    limits::order();
    rows::one_row();
    rows::far_inside();
    rows::come_back();
    rows::rows_in_a_row();
    rows::rows_of_trees();
    long_lines::one_record();
    long_lines::short_match();
    long_lines::a_thousand_records();
    long_lines::looking_to_the_end();
    tables::counts();
    tables::cuts();
    tables::roots();
    tables::kinds();
    tables::fields();
    tables::order();
    loops::kilowatts();
    loops::over_rules();
    loops::over_nodes();
    loops::order();
}
