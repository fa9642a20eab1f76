// The line of words that says a record is read by `job_words` as that record (specs/Rows), and a text of them as the records (specs/Text). There is no code here.
#![tactic(auto)]
