// Definitions alone: what every word of document 01 means. They stand in specs/, one file for each heading.
#![tactic(auto)]
